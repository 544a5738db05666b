mod cases;
mod handles;
mod keys;
mod makings;
mod memory;
mod play;
mod rows;
mod shards;
mod twins;

use crate::same;
