// What the program says of itself: how it is started, and its commands.
use lines::show::write_bytes;

// Stays in both consoles: written at once, it stands whole in each.
pub(crate) fn show_usage(rt: &impl Print) {
    write_bytes(
        rt,
        b"\
usage: sketch [--echo]
Commands come on standard input, one a line, and each is answered at once; `help` lists them.
  --echo  prints each line before its answer
  --help  prints these lines
",
    );
}

// The commands in groups: what each does, and after the colon what it answers.
pub(crate) fn show_help(rt: &impl Print) {
    write_bytes(
        rt,
        b"\
A block is named by how many blocks were added before it, removed ones counted. A port is B S P: its block, its side (0 incoming, 1
outgoing) and its position there, from 0. An end is a port and an offset O among its subports, 0 where the port is not split.
Change the sketch:
  new RELEASE              an empty sketch for release 1, where an input takes many wires, or 2, where it takes one: ok
  add IN OUT               a block with so many inputs and outputs: ok NAME
  remove N                 takes a block away, with its wires: ok
  resize N IN OUT          other numbers of ports: ok
  link B S P B S P         a wire between two ports: ok B S P O B S P O
  linkclean B S P B S P    the same; a refused one leaves nothing behind: ok B S P O B S P O
  linksub B S P O B S P O  a wire between two ends: ok B S P O B S P O
  sheet B S P B S P ..     up to 64 links at once, in order: the answer of each, ok ENTRIES
  unlink B S P             cuts all wires at a port: ok 1 B S P, the port itself if it was split, else the far port; or ok 0
  unlinksub B S P O        cuts the wire at an end: ok 1 B S P O, the far end; or ok 0
  tidy B S P               takes the empty subports at a port's end away, and no wire: ok
Ask for numbers:
  sublink B S P O          the far end of the wire at an end: ok 1 B S P O; or ok 0
  counts                   how much there is: ok BLOCKS PORTS WIRES
  fanout B S P             how many wires a port has: ok NUMBER
  blockfanout N            how many wires leave a block: ok NUMBER
List, the newest first (each ends in ok NUMBER; SIDE is 0 incoming, 1 outgoing, 2 both; of a wire the end that is asked for comes first):
  blocks                   all blocks: N each
  subports N SIDE          the ends of a block in order, with a wire or without: B S P O each
  links B S P              the wires of a port: B S P O B S P O each
  back B S P               the same from the back, the oldest first
  nodelinks N SIDE         the wires of a block
  neighbours N SIDE FLAG   the block at each wire, with FLAG 1 not its own outputs: N each
  connections N M          the wires from block N to block M
  wires                    all wires, the outgoing end first
Besides:
  help                     these lines
  quit                     ends the program
A call that cannot be done answers refused NUMBER, and a line that is no command bad line NUMBER.
",
    );
}
