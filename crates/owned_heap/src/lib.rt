//! A heap that owns its memory and its layers: blocks of bytes, and no proof for its callers.
#![tactic(auto)]

mod block;
mod heap;
mod layers;
mod report;
mod rows;
mod table;

pub use affix_layer::Affix;
pub use block::{Event, OwnedBlock};
pub use free_list::FreeList;
pub use heap::OwnedHeap;
pub use layer_core::{Block, Fact, Layer, Mem, NullLayer, Offers, Refused};
pub use layers::{Ground, Layers};
pub use quantizer::Quantizer;
pub use quota::Quota;
pub use region_block::Region;
pub use rows::{BlockVec, PushError};
pub use size_round::{Multiple, PowerOfTwo};
pub use space_core::NoMemory;
pub use stats_collector::StatsCollector;
pub use table::BlockTable;
