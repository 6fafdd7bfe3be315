//! Two hosts on a link.

mod ends;
mod losses;
