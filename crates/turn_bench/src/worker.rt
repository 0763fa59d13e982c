// A thread's seat and buffer.
use crate::page::{Buffer, SharedPage};
use turn_seat::Seat;

/// A thread that takes turns. The seat is out only while the thread uses it.
#[derive(Drop)]
pub struct Worker {
    pub seat: Option<Seat<SharedPage>>,
    pub buffer: Buffer,
}
