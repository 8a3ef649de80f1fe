// The records of a trace: reads them one by one.
#![tactic(auto)]

mod decode;
pub mod encoding;
pub mod reader;
pub mod record;

pub use encoding::encoding_reads_back;
pub use reader::{LONGEST_TRACE, Reader};
pub use record::Record;
