//! The types of each chain's sender and receiver, by the nodes of its levels.

use pdh_ds::{Ds2, Ds3, Ds3C};
use pdh_eframes::{E2, E3, E4};
use pdh_locked::Locked;
use pdh_rx::{RxNode, Tail};
use pdh_tx::{Leaf, Node};

/// The sender of `e12`.
pub type E12Sender = Node<E2, Leaf>;

/// The receiver of `e12`.
pub type E12Receiver = RxNode<E2, Tail>;

/// The sender of `e23`.
pub type E23Sender = Node<E3, Leaf>;

/// The receiver of `e23`.
pub type E23Receiver = RxNode<E3, Tail>;

/// The sender of `e34`.
pub type E34Sender = Node<E4, Leaf>;

/// The receiver of `e34`.
pub type E34Receiver = RxNode<E4, Tail>;

/// The sender of `e13`.
pub type E13Sender = Node<E3, E12Sender>;

/// The receiver of `e13`.
pub type E13Receiver = RxNode<E3, E12Receiver>;

/// The sender of `e24`.
pub type E24Sender = Node<E4, E23Sender>;

/// The receiver of `e24`.
pub type E24Receiver = RxNode<E4, E23Receiver>;

/// The sender of `e14`.
pub type E14Sender = Node<E4, E13Sender>;

/// The receiver of `e14`.
pub type E14Receiver = RxNode<E4, E13Receiver>;

/// The sender of `m12`.
pub type M12Sender = Node<Ds2, Leaf>;

/// The receiver of `m12`.
pub type M12Receiver = RxNode<Ds2, Tail>;

/// The sender of `m23`.
pub type M23Sender = Node<Ds3, Leaf>;

/// The receiver of `m23`.
pub type M23Receiver = RxNode<Ds3, Tail>;

/// The sender of `m13`.
pub type M13Sender = Node<Ds3, M12Sender>;

/// The receiver of `m13`.
pub type M13Receiver = RxNode<Ds3, M12Receiver>;

/// The sender of `c13`, whose top has no stores.
pub type C13Sender = Locked<Ds3C, M12Sender>;

/// The receiver of `c13`.
pub type C13Receiver = RxNode<Ds3C, M12Receiver>;
