// Who looks on while a file is walked, and why a walk ends early.
ghost use Rattle.docket_records.specs.Vouchers.{voucher_of};
ghost use Rattle.file_check.specs.declared.watcher.Ended.TheVariants.{Refused};
ghost use Rattle.file_rules.specs.Asks.{Words};
ghost use Rattle.std.specs.Prelude.{◌≡◌, ◌++◌, ℕ, List, [], OnOk};

use crate::file::DocketFile;
use bounds::Bound;
use docket_records::docket_header::DocketHeader;
use docket_records::token::InitialToken;
use file_rules::FileFault;
use std::convert::Infallible;

/// A watcher keeps silent or tells; he can stop the walk, where he has no memory for more.
pub trait Watcher<B: Bound>: Sized {
    /// Why he stops.
    type Stop;

    // what he says of each record, and what he has said
    ghost words: { Words B };

    ghost said: { Self → List ℕ };

    /// The docket header was read.
    fn header(&mut self, header: DocketHeader) -> Result<(), Self::Stop>
        ensures { OnOk result (said self.new ≡ said self.old ++ words.header header) };

    /// An initial token was read; they are numbered from 1.
    fn token(&mut self, number: u8, token: InitialToken) -> Result<(), Self::Stop>
        ensures { OnOk result (said self.new ≡ said self.old ++ words.token number token) };

    /// The docket of this file has taken a zone: its last page.
    fn zone(&mut self, file: &DocketFile<'_, '_, B>) -> Result<(), Self::Stop>
        ensures { OnOk result (said self.new ≡ said self.old ++ words.zone file.now.world) };

    /// The docket of this file is about to answer this voucher.
    fn voucher(&mut self, file: &DocketFile<'_, '_, B>, voucher: &[u8]) -> Result<(), Self::Stop>
        ensures { OnOk result (said self.new ≡
            said self.old ++ words.voucher file.now.world.state (voucher_of voucher.now)) };
}

/// A watcher who says nothing.
#[derive(Clone, Copy)]
pub struct Silent;

impl<B: Bound> Watcher<B> for Silent {
    ghost words = { record {
      header = λ header. [];
      token = λ number token. [];
      zone = λ world. [];
      voucher = λ state voucher. [];
    } };

    ghost said = { λ s. [] };

    type Stop = Infallible;

    fn header(&mut self, _header: DocketHeader) -> Result<(), Infallible> {
        Ok(())
    }

    fn token(&mut self, _number: u8, _token: InitialToken) -> Result<(), Infallible> {
        Ok(())
    }

    fn zone(&mut self, _file: &DocketFile<'_, '_, B>) -> Result<(), Infallible> {
        Ok(())
    }

    fn voucher(
        &mut self,
        _file: &DocketFile<'_, '_, B>,
        _voucher: &[u8],
    ) -> Result<(), Infallible> {
        Ok(())
    }
}

// Why a walk ends before the end of the file.
pub(crate) enum Ended<S> {
    // the watcher stops it
    Stopped(S),
    // a record is refused, or its call
    Refused(FileFault),
}

impl<S> From<FileFault> for Ended<S> {
    ghost from_gives = { λ fault r. r ≡ Refused fault };

    fn from(fault: FileFault) -> Ended<S> {
        Ended::Refused(fault)
    }
}
