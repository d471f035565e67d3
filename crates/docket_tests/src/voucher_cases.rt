// Vouchers read from bytes.
use docket_records::fault::EntryRefusal;
use docket_records::record::Record;
use docket_records::voucher::Voucher;
use std::test::Fail;

#[test]
fn a_voucher_is_six_bytes(rt: HostRuntime) -> Result<(), Fail> {
    let voucher = Voucher::read(&[0x02, 0x24, 0x00, 0x00, 0x00, 0x00])?;
    let said = Voucher {
        void: false,
        zone: 1,
        partners: [1, 2, 0, 0, 0, 0, 0, 0],
    };
    assert_eq!(rt; voucher, said);
    // the second partner is used by a zone of two tokens, and by one that is not listed
    assert!(rt; !voucher.unused_set(2));
    assert!(rt; voucher.unused_set(1));
    assert!(rt; !voucher.unused_set(8));
    let void = Voucher::read(&[0x80, 0x00, 0x00, 0x00, 0x00, 0x00])?;
    assert!(rt; void.void && !void.unused_set(8));
    assert!(rt; Voucher::read(&[0x82, 0x00, 0x00, 0x00, 0x00, 0x00])?.unused_set(8));
    assert!(rt; Voucher::read(&[0x80, 0x00, 0x00, 0x00, 0x02, 0x00])?.unused_set(8));
    let spare = Voucher::read(&[0x80, 0x00, 0x00, 0x00, 0x01, 0x00]);
    assert_eq!(rt; spare.err(), Some(EntryRefusal::NotZero));
    let short = Voucher::read(&[0x80, 0x00, 0x00, 0x00, 0x00]);
    assert_eq!(rt; short.err(), Some(EntryRefusal::WrongLength));
    Ok(())
}
