//! The shards that a queue is made of, and those that are lent.

use super::same;
use dq_core::CoreError;
use dq_shards::{QueueConfig, QueueError, ShardState, SharedDelayQueue};
use std::alloc::Global;
use std::mem;
use std::sync::Mutex;

const BAD_CONFIG: Option<QueueError> = Some(QueueError::Core(CoreError::BadConfig));

// Shards, the capacity and the last stamp of each, and why no queue of that configuration is made, if it isn't.
const CONFIGS: &[(usize, usize, u32, Option<QueueError>)] = &[
    (0, 4, 1048575, BAD_CONFIG),
    (65, 4, 1048575, BAD_CONFIG),
    (1, 0, 1048575, BAD_CONFIG),
    (1, 65537, 1048575, BAD_CONFIG),
    (1, 4, 0, BAD_CONFIG),
    (1, 4, 1048576, BAD_CONFIG),
    (1, 4, 67108864, BAD_CONFIG),
    (64, 1, 1048575, None),
    (1, 65536, 1, None),
];

fn refusal(alloc: Global, config: QueueConfig) -> Option<QueueError> {
    let made: Result<SharedDelayQueue<char>, QueueError> = SharedDelayQueue::new(alloc, config);
    made.err()
}

// promise: shards.memory-bad
#[test]
fn bad_configs(rt: HostRuntime) {
    for (shards, capacity, last_stamp, answer) in CONFIGS {
        let config = QueueConfig {
            shards: *shards,
            capacity: *capacity,
            last_stamp: *last_stamp,
        };
        let refused = refusal(rt.alloc(), config);
        same(&rt, "new", (config, refused), (config, *answer));
    }
}

// No cache line, of 64 bytes, has what two shards write.
// promise: shards.shard-behind
#[test]
fn shards_are_whole_cache_lines(rt: HostRuntime) {
    let (empty, boxed) = (
        mem::size_of::<Mutex<ShardState<()>>>(),
        mem::size_of::<Mutex<ShardState<Box<u64>>>>(),
    );
    same(&rt, "lines", (empty % 64, boxed % 64), (0, 0));
}
