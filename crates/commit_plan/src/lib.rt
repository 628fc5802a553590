//! Images, what a root holds and takes, and what a commit will write, and where: the records of an image in free
//! blocks, their catalog, and the body of the next root.
#![tactic(auto)]

mod catalog_and_body;
mod draft;
mod equality;
pub mod fault;
mod filed_record;
pub mod image;
pub mod laws;
pub mod live_records;
pub mod loaded;
pub mod next;
mod record_places;
pub mod room;
pub mod taken_room;
pub mod write;
