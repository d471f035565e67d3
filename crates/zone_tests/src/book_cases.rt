// Pages of a book, and what stands against a page's vouching.
use crate::drafts::{draft, number};
use bounds::{Bound, PlainBound};
use std::test::Fail;
use test_records::zone_bytes::*;
use zone_pages::{Asked, Book, Claim, Objection, Page};

// A page whose first token has an age from 0 up to this bound; all else has no limit.
fn page_cells(upper: PlainBound) -> [PlainBound; 81] {
    let mut cells = [PlainBound::no_limit(); 81];
    cells[1] = PlainBound::zero();
    cells[9] = upper;
    cells
}

// The objection's number, for an item with tokens in places 1 and 0.
fn objected(
    cells: &[PlainBound],
    places: &[u8],
    item: &[PlainBound],
    pairing: &[u8],
) -> Option<u8> {
    let page = Page { cells, places };
    let asked = Asked {
        cells: item,
        places: &[1, 0],
    };
    let claim = Claim {
        page,
        asked,
        pairing,
    };
    claim.check().err().map(Objection::number)
}

#[test]
fn an_objection_by_the_lowest_number(rt: HostRuntime) -> Result<(), Fail> {
    let item = draft(rt.alloc(), &[2, 0x04], &TWO)?;
    let page = page_cells(PlainBound::no_limit());
    assert_eq!(rt; objected(&page, &[1], &item, &[1]), None);
    assert_eq!(rt; objected(&page, &[1], &item, &[2]), Some(31));
    assert_eq!(rt; objected(&page, &[1], &item, &[3]), Some(30));
    assert_eq!(rt; objected(&page, &[1], &item, &[0]), Some(30));
    assert_eq!(rt; objected(&page, &[1], &item, &[]), Some(30));
    assert_eq!(rt; objected(&page, &[1], &item, &[1, 2]), Some(30));
    assert_eq!(rt; objected(&page, &[1, 1], &item, &[1, 1]), Some(30));
    // the item's first token has an age of 6 at most
    let page = page_cells(number(5));
    assert_eq!(rt; objected(&page, &[1], &item, &[1]), Some(32));
    assert_eq!(rt; objected(&page, &[1], &item, &[2]), Some(31));
    let page = page_cells(number(6));
    assert_eq!(rt; objected(&page, &[1], &item, &[1]), None);
    Ok(())
}

#[test]
fn a_book_hands_on_its_pages(rt: HostRuntime) -> Result<(), Fail> {
    let heap = rt.alloc();
    let mut cells = Vec::new(heap);
    let mut places = Vec::new(heap);
    for page in 0..64 {
        cells.extend_from_slice(&page_cells(number(i32::from(page))))?;
        places.extend_from_slice(&[page; 8])?;
    }
    let book = Book {
        cells: &cells,
        places: &places,
    };
    let page = book.page(63, 8);
    assert_eq!(rt; page.places, [63; 8].as_slice());
    assert_eq!(rt; page.cells.len(), 81);
    assert_eq!(rt; page.bound(1, 0), number(63));
    // past the end there is no cell and no place
    let past = book.page(64, 8);
    assert_eq!(rt; past.cells.len(), 0);
    assert_eq!(rt; past.places.len(), 0);
    assert_eq!(rt; past.bound(0, 0), PlainBound::no_limit());
    // places are handed on as asked for, also those of the next page
    assert_eq!(rt;
        book.page(0, 9).places,
        [0, 0, 0, 0, 0, 0, 0, 0, 1].as_slice()
    );
    Ok(())
}
