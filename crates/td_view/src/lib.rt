//! A text that one thread publishes, and that others look at without waiting.
//!
//! What a writer publishes is a list that only grows. A reader is shown the publish at the end of a beginning of it,
//! never an older one than it saw or learnt of, and after the end of the writer no more than the writer published.
//! Begin at `writer` and `reader`. `specs/Publishes.antt` says which publishes may follow one another,
//! `specs/Values.antt` what contracts see, `specs/Tied.antt` what each step of any thread keeps.
#![tactic(auto)]

mod beginnings;
mod crossing;
mod deed;
mod ended;
mod ending;
mod history;
mod laws;
mod opener;
mod opening;
mod publish;
mod publishing;
mod reader;
mod refusals;
mod shown;
mod table;
mod told;
mod view_mark;
mod views_fault;
mod writer;

pub use ended::Ended;
pub use laws::{a_reader_of_the_end_is_within, upto_never_falls};
pub use opener::Opener;
pub use opening::views;
pub use publish::Publish;
pub use reader::Reader;
pub use shown::Shown;
pub use told::Told;
pub use view_mark::ViewMark;
pub use views_fault::ViewsFault;
pub use writer::Writer;
