//! Queues: first in, first out, over places that the caller lends, and nothing allocated.
#![tactic(auto)]

pub mod ring;

pub use ring::{Queue, QueueRefusal};

#[cfg(test)]
mod tests {
    use super::Queue;

    // A full queue refuses, and a place that was freed is used again.
    #[test]
    fn around_two_places(rt: HostRuntime) {
        let mut places = [0u32; 2];
        let mut queue = Queue::over(&mut places[..]);
        assert!(rt; queue.push(1).is_ok() && queue.push(2).is_ok());
        assert!(rt; queue.push(3).is_err());
        assert_eq!(rt; queue.pop(), Some(1));
        assert!(rt; queue.push(3).is_ok());
        assert_eq!(rt; queue.pop(), Some(2));
        assert_eq!(rt; queue.pop(), Some(3));
        assert_eq!(rt; queue.pop(), None);
    }
}
