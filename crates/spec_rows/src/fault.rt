/// The first test that a page fails: the number of its error (numbers are chosen after those of DBCC
/// CHECKDB; what each means is this project's own), and what stands in the error beside object and
/// page. Fields that the number doesn't use are 0.
#[derive(Clone, Copy, Debug, PartialEq, Eq)]
pub struct SlotFault {
    pub number: u32,
    /// The object that the page says it belongs to.
    pub other: u32,
    pub slot: u32,
    pub value: u64,
}
