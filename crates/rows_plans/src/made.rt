// Pages of a small file of 16 pages, made by hand.
use pg_base::{Header, ObjId, Page, PageNo, write_header};

/// A page of this type and number, of an object, with nothing in it.
pub fn typed(kind: u8, p: u32, object: u32) -> Page {
    let mut page = Page { bytes: [0; 8192] };
    let header = Header {
        page_type: kind,
        level: 0,
        page_id: PageNo(p),
        object: ObjId(object),
        prev: PageNo(0),
        next: PageNo(0),
        slots: 0,
        free_count: 0,
        free_from: 0,
        ghosts: 0,
    };
    write_header(&mut page, &header);
    page
}

/// The first page of an object's chain, with a page in slot 0.
pub fn iam_page(p: u32, object: u32, held: u8) -> Page {
    let mut page = typed(10, p, object);
    page.bytes[104] = held;
    page
}

/// No rows: 8,096 bytes are free, from byte 96 on.
pub fn heap_page(p: u32, object: u32) -> Page {
    let mut page = typed(1, p, object);
    page.bytes[22] = 0xA0;
    page.bytes[23] = 0x1F;
    page.bytes[24] = 96;
    page
}
