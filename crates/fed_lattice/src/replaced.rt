//! What a join of entries replaced.

use crate::boxed::Boxed;

/// What undoes a join into a table: the keys that it added, and the values that stood at the other keys.
#[derive(Drop)]
pub(crate) struct Replaced<K, V> {
    pub(crate) added: Vec<K>,
    pub(crate) former: Vec<(K, Boxed<V>)>,
}
