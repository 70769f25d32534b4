// The tables that tell what a port is and what it is wired with, which the graph lends.
use port_tables::index::{NODE_SLOTS, PORT_SLOTS};

// The definitions take the tables one by one: most read two or three.
#[derive(Clone, Copy)]
pub struct WireTables<'a> {
    pub marks: &'a [bool; PORT_SLOTS],
    pub links: &'a [u32; PORT_SLOTS],
    pub owners: &'a [u32; PORT_SLOTS],
    pub flags: &'a [bool; NODE_SLOTS],
}
