// What the program says of itself: how it is started, and its commands.
use lines::show::write_bytes;

// Stays in both consoles: written at once, it stands whole in each.
pub(crate) fn show_usage(rt: &impl Print) {
    write_bytes(
        rt,
        b"\
usage: wiring [--echo]
Commands come on standard input, one a line, and each is answered at once; `help` lists them.
  --echo  prints each line before its answer
  --help  prints these lines
",
    );
}

// The commands in groups: what each does, and after the colon what it answers.
pub(crate) fn show_help(rt: &impl Print) {
    write_bytes(
        rt,
        b"\
Change the wiring:
  add IN OUT              a block with so many inputs and outputs: ok NODE FIRSTPORT
  remove N                takes a block away, with its wires: ok
  resize N IN OUT         other numbers of ports: PORT 0 NEWPORT or PORT 1 OLDLINK each, ok EVENTS
  link A B                a wire between two ports: ok PORT OFFSET PORT OFFSET
  linkclean A B           the same; a refused one leaves nothing behind: ok PORT OFFSET PORT OFFSET
  linksub P O Q R         a wire between two subports: ok PORT OFFSET PORT OFFSET
  sheet A B A B ..        up to 64 links at once, in order: the answer of each, ok ENTRIES
  unlink P                cuts all wires at a port: ok 1 PORT OFFSET NODE SIDE POSITION, or ok 0 0 0
  unlinksub P O           cuts the wire at a subport: ok 1 PORT OFFSET NODE SIDE POSITION, or ok 0 0 0
  tidy P                  takes the empty subports at a port's end away, and no wire: ok
Ask for numbers:
  sublink P O             the far end of the wire at a subport: ok 1 PORT OFFSET NODE SIDE POSITION, or ok 0 0 0
  counts                  how much there is: ok NODES PORTS LINKS
  fanout P                how many wires a port has: ok NUMBER
  blockfanout N           how many wires leave a block: ok NUMBER
List (each ends in ok NUMBER; SIDE is 0 incoming, 1 outgoing, 2 both; a link has both ends, and the place of the second):
  blocks                  all blocks: N each
  subports N SIDE         the subports of a block: PORT OFFSET each
  links P                 the links of a port: PORT OFFSET PORT OFFSET NODE SIDE POSITION each
  back P                  the same from the back
  nodelinks N SIDE LO HI  the links of a block, without those to ports from LO on, HI excluded
  neighbours N SIDE FLAG  the block at each link, with FLAG 1 not its own outputs: N each
  connections N M         the links from block N to block M
  wires                   all wires: PORT OFFSET PORT OFFSET NODE SIDE POSITION each
  places                  all wires: NODE POSITION OFFSET NODE POSITION OFFSET each
  slots                   every block of port slots in use: FIRST SIZE NODE each, or FIRST SIZE free
Keep:
  save NAME               writes the wiring to a file, at once or not at all: ok LENGTH
  load NAME               the wiring of a file, for the release in hand, in place of this one, which stays if it is refused: ok
  merge NAME NAME NAME    the first two files as one, the second behind the first, into the third: ok LENGTH
  new RELEASE             an empty wiring for release 1, where an input takes many wires, or 2, where it takes one: ok
Times of node slots, 0 at the start, kept by new and load:
  time N MICROSECONDS     the time of a node slot, up to 65535: ok
  longest N               the largest sum of times along wires that end at a block, its own included: ok SUM
  path N                  blocks along wires that have this sum, from the first to N: NODE TIME each, ok SUM
  runorder N N ..         whether the blocks can run in this order, each once and after all that feed it: ok 1, or ok 0
Besides:
  help                    these lines
  quit                    ends the program
A call that cannot be done answers refused NUMBER, and a line that is no command bad line NUMBER.
",
    );
}
