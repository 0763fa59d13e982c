/// How an IAM chain ends (this project's own).
#[derive(Clone, Copy)]
pub enum ChainEnd {
    /// After its last page.
    Whole,
    /// At a pointer that is no page of the file.
    Outside,
    /// Before a page that isn't ordinary or is no IAM page.
    NotIam,
    /// Before an IAM page of another object.
    OtherObject,
    /// Before an IAM page of an interval that the file hasn't.
    WrongInterval,
    /// Before a page that the chain has met.
    Met,
}
