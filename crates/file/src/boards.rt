// A board, draft or settled.
use board::{Draft, Settled};
use costs::Kind;

#[derive(Drop)]
pub enum Board<K: Kind> {
    Drafted(Draft<K>),
    Settled(Settled<K>),
}
