// The walk over a file, record by record, with a watcher who hears of each.
ghost use Rattle.docket_records.specs.DocketRecords.{docket_header_of, token_of};
ghost use Rattle.docket_records.specs.Records.{header_size, token_size, voucher_size, zone_size};
ghost use Rattle.file_check.specs.Files.{IsClosed};
ghost use Rattle.file_check.specs.Walks.{AsGiven, Comes, Hears, HearsAll, HearsTokens, RunsAll};
ghost use Rattle.file_check.specs.Walks.{TellsAll, read_tokens};
ghost use Rattle.file_check.specs.Walks.{close_next, docket_next, header_next, marking_next};
ghost use Rattle.file_check.specs.Walks.{nothing_next, proving_next};
ghost use Rattle.file_check.specs.Walks.{target_next, token_next, voucher_next, vouchers_next};
ghost use Rattle.file_check.specs.Walks.{zone_next, zones_next};
ghost use Rattle.net_records.specs.Parts.{Moved};
ghost use Rattle.std.specs.Prelude.{take, ◌≡◌, ◌<◌, IfOk, OnOk};

use crate::file::DocketFile;
use crate::initial::InitialLists;
use crate::watcher::{Ended, Watcher};
use bounds::Bound;
use docket_records::docket_header::DocketHeader;
use docket_records::token::InitialToken;
use file_rules::Line;

impl<'a, 'm, B: Bound> DocketFile<'a, 'm, B> {
    // ---- one record, and what the watcher hears of it
    fn told_header<W: Watcher<B>>(
        &mut self,
        watcher: &mut W,
    ) -> Result<DocketHeader, Ended<W::Stop>>
        ensures told { Hears W.Watcher.words B.Bound.kind header_next self.old
            (W.Watcher.said watcher.old) self.new (W.Watcher.said watcher.new) result }
        ensures moved { Moved header_size self.old.unread result self.new.unread }
        ensures header { IfOk result
            (λ h. h ≡ docket_header_of (take header_size self.old.unread.rest)) }
    {
        let header = self.header()?;
        watcher.header(header).map_err(|stop| Ended::Stopped(stop))?;
        Ok(header)
    }

    fn told_token<W: Watcher<B>>(
        &mut self,
        watcher: &mut W,
        number: u8,
    ) -> Result<InitialToken, Ended<W::Stop>>
        ensures told { Hears W.Watcher.words B.Bound.kind (token_next number) self.old
            (W.Watcher.said watcher.old) self.new (W.Watcher.said watcher.new) result }
        ensures moved { Moved token_size self.old.unread result self.new.unread }
        ensures token { IfOk result (λ t. t ≡ token_of (take token_size self.old.unread.rest)) }
    {
        let token = self.token()?;
        watcher
            .token(number, token)
            .map_err(|stop| Ended::Stopped(stop))?;
        Ok(token)
    }

    fn told_target<W: Watcher<B>>(
        &mut self,
        watcher: &mut W,
        initial: &InitialLists,
    ) -> Result<(), Ended<W::Stop>>
        ensures told { Hears W.Watcher.words B.Bound.kind (target_next initial.now) self.old
            (W.Watcher.said watcher.old) self.new (W.Watcher.said watcher.new) result }
        ensures moved { Moved zone_size self.old.unread result self.new.unread }
    {
        self.target(initial)?;
        watcher.zone(self).map_err(|stop| Ended::Stopped(stop))?;
        Ok(())
    }

    fn told_zone<W: Watcher<B>>(&mut self, watcher: &mut W) -> Result<(), Ended<W::Stop>>
        ensures told { Hears W.Watcher.words B.Bound.kind zone_next self.old
            (W.Watcher.said watcher.old) self.new (W.Watcher.said watcher.new) result }
        ensures moved { Moved zone_size self.old.unread result self.new.unread }
    {
        self.zone()?;
        watcher.zone(self).map_err(|stop| Ended::Stopped(stop))?;
        Ok(())
    }

    // The watcher hears of a voucher before the docket answers it.
    fn told_voucher<W: Watcher<B>>(&mut self, watcher: &mut W) -> Result<(), Ended<W::Stop>>
        ensures told { Hears W.Watcher.words B.Bound.kind voucher_next self.old
            (W.Watcher.said watcher.old) self.new (W.Watcher.said watcher.new) result }
        ensures moved { Moved voucher_size self.old.unread result self.new.unread }
        ensures closed { OnOk result (IsClosed self.new.world.state.stage) }
    {
        let part = self.voucher_record()?;
        watcher
            .voucher(self, part.bytes)
            .map_err(|stop| Ended::Stopped(stop))?;
        self.discharge(part)?;
        Ok(())
    }

    // ---- several records
    // The tokens one by one, and the two lists of them. What is wrong with the marking that they
    // are, open answers.
    fn told_tokens<W: Watcher<B>>(
        &mut self,
        watcher: &mut W,
        count: u8,
    ) -> Result<InitialLists, Ended<W::Stop>>
        requires { count < 16 }
        ensures told { HearsTokens W.Watcher.words B.Bound.kind count self.old
            (W.Watcher.said watcher.old) self.new (W.Watcher.said watcher.new) result }
        ensures lists { IfOk result (λ lists. AsGiven count self.old.unread.rest lists) }
        ensures left { OnOk result (self.new.unread ≡ read_tokens count self.old.unread) }
    {
        let mut lists = InitialLists::new();
        for at in 0..count {
            let token = self.told_token(watcher, at + 1)?;
            lists.add(token);
        }
        Ok(lists)
    }

    fn told_zones<W: Watcher<B>>(
        &mut self,
        watcher: &mut W,
        count: u8,
    ) -> Result<(), Ended<W::Stop>>
        ensures { HearsAll W.Watcher.words B.Bound.kind (zones_next count) proving_next self.old
            (W.Watcher.said watcher.old) self.new (W.Watcher.said watcher.new) result }
    {
        for _ in 0..count {
            self.told_zone(watcher)?;
        }
        Ok(())
    }

    // Every voucher to the end of the file.
    fn told_vouchers<W: Watcher<B>>(&mut self, watcher: &mut W) -> Result<(), Ended<W::Stop>>
        requires { IsClosed self.old.world.state.stage }
        ensures told { HearsAll W.Watcher.words B.Bound.kind vouchers_next nothing_next self.old
            (W.Watcher.said watcher.old) self.new (W.Watcher.said watcher.new) result }
        ensures closed { OnOk result (IsClosed self.new.world.state.stage) }
    {
        while !self.is_at_end() {
            self.told_voucher(watcher)?;
        }
        Ok(())
    }

    // There is no record of a close, and nothing is told of it.
    fn told_close<W: Watcher<B>>(&mut self, watcher: &mut W) -> Result<(), Ended<W::Stop>>
        ensures told { Hears W.Watcher.words B.Bound.kind close_next self.old
            (W.Watcher.said watcher.old) self.new (W.Watcher.said watcher.new) result }
        ensures unread { self.new.unread ≡ self.old.unread }
        ensures closed { OnOk result (IsClosed self.new.world.state.stage) }
    {
        self.close()?;
        Ok(())
    }

    // What the header says, up to the last listed zone.
    fn listing<W: Watcher<B>>(
        &mut self,
        watcher: &mut W,
        header: DocketHeader,
    ) -> Result<(), Ended<W::Stop>>
        requires { header.initial < 16 }
        ensures { HearsAll W.Watcher.words B.Bound.kind (marking_next header) proving_next self.old
            (W.Watcher.said watcher.old) self.new (W.Watcher.said watcher.new) result }
    {
        let lists = self.told_tokens(watcher, header.initial)?;
        self.told_target(watcher, &lists)?;
        self.told_zones(watcher, header.zones)
    }

    // The list is closed, and its items are answered.
    fn proving<W: Watcher<B>>(&mut self, watcher: &mut W) -> Result<(), Ended<W::Stop>>
        ensures told { HearsAll W.Watcher.words B.Bound.kind proving_next nothing_next self.old
            (W.Watcher.said watcher.old) self.new (W.Watcher.said watcher.new) result }
        ensures closed { OnOk result (IsClosed self.new.world.state.stage) }
    {
        self.told_close(watcher)?;
        self.told_vouchers(watcher)
    }

    // Every record, up to the end of the file.
    fn records<W: Watcher<B>>(&mut self, watcher: &mut W) -> Result<Line, Ended<W::Stop>>
        ensures { Comes W.Watcher.words B.Bound.kind self.old
            (docket_next B.Bound.kind self.old.unread)
            (W.Watcher.said watcher.old) self.new (W.Watcher.said watcher.new) result }
    {
        let header = self.told_header(watcher)?;
        self.listing(watcher, header)?;
        self.proving(watcher)?;
        let Some(line) = self.line() else {
            unreachable!()
        };
        Ok(line)
    }

    /// Makes every call that the records ask for, and comes to the line, unless the watcher stops
    /// it. How the file stands afterwards is not said: the line says what came of it.
    pub fn walk<W: Watcher<B>>(&mut self, watcher: &mut W) -> Result<Line, W::Stop>
        ensures told { IfOk result (λ line.
            TellsAll W.Watcher.words B.Bound.kind self.old (W.Watcher.said watcher.old)
            self.new (W.Watcher.said watcher.new) line) }
        ensures line { IfOk result (λ line. RunsAll B.Bound.kind self.old line) }
    {
        match self.records(watcher) {
            Ok(line) => Ok(line),
            Err(Ended::Refused(fault)) => Ok(Line::Refused(fault)),
            Err(Ended::Stopped(stop)) => Err(stop),
        }
    }
}
