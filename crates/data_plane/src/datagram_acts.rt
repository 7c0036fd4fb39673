//! What becomes of datagrams on the links of a network: they are accepted, leave at interfaces, go on branches and land.

mod datagrams;
mod leaving;

pub use buf_pool::Pool;
pub use datagrams::Datagrams;
