//! The links and the port of a node.

use sja_bus::SerialBoard;
use sja_link::DequeLinks;
use sja_regs::Port;

/// The links of this node.
pub fn links_at(links: &mut Vec<DequeLinks>, node: u8) -> Option<&mut DequeLinks> {
    links.get_mut(usize::from(node))
}

/// The port of this node.
pub fn port_at(board: &mut SerialBoard, node: u8) -> Option<&mut Port> {
    board.ports.get_mut(usize::from(node))
}
