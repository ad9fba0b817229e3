//! What stands below the help of the program and of each command: the form of the input, and an example
//! that can be tried.

/// Of the program.
pub(crate) const PROGRAM_EXAMPLE: &str = "\
Example:
  someipctl show examples/one.txt

The help of a command shows the form of its input, as `someipctl help show` does.";

/// Of `show`.
pub(crate) const SHOW_EXAMPLE: &str = "\
A capture has one datagram a line, in hex. `-` is the empty datagram, spaces are ignored,
and lines that begin with # are comments. So the line
  12340421 00000008 00010001 01010000
prints
  1 message 1234.0421 length 8 client 0001 session 0001 interface 01 type REQUEST code 00 payload -";

/// Of `payload`.
pub(crate) const PAYLOAD_EXAMPLE: &str = "\
SHAPE says what the payload looks like, HEX is the payload in hex without spaces, - for no bytes.
A shape is bool, u8, u16, u32, u64, i8, i16, i32, i64, f32 or f64, with le behind a number of more
than one byte for the other order; utf8, utf16, array<MAX,shape> or struct(shape,..), with /8, /16
or /32 behind the word for the width of the length field; utf8fix<N> or utf16fix<N>, a text in N
bytes; fixed<N,shape>; union(NUMBER:shape,..); or tagged(ID:shape,ID?:shape,..), with a width as
above, where ? marks a member that may be absent, which is printed as -. NAME: in front of a member
names it, and u8{0=OFF,1=ON} names values. So the calls
  someipctl payload 'array<2,u16>' 0000000400010002
  someipctl payload 'tagged/8(1:u8,2?:utf8)' 070001071009ffff
print
  value [1,2]
  used 8 of 8
and
  value {7,-}
  used 8 of 8
where member 2 is absent, and the item of the unknown ID 9 is skipped.";

/// Of `encode`.
pub(crate) const ENCODE_EXAMPLE: &str = "\
SHAPE is that of `payload`, VALUE the value as `payload` prints it. Names of members may be left
out, a number may stand for a name, and a float may have any decimal form. A VALUE that begins with
- stands behind --. So the calls
  someipctl encode 'struct(speed:f32,gear:u8{0=P,3=D})' '(speed=20.5,gear=D)'
  someipctl encode 'array/8<2,i8>' '[-1,2]'
  someipctl encode i16 -- -2
print
  41a4000003
  02ff02
  fffe";

/// Of `vectors`.
pub(crate) const VECTORS_EXAMPLE: &str = "\
A line `datagram HEX` or `payload SHAPE HEX` is a vector, and the lines after it that begin with
`> ` are the text that it expects: that of `show`, where the datagram is the first of a capture,
or that of `payload`. HEX has no spaces. Empty lines and lines that begin with # are left out.
So the lines
  datagram -
  > 1 empty
  payload u8 07
  > value 8
  > used 1 of 1
print
  1 ok
  2 differs
  passed 1 of 2";

/// Of `run`.
pub(crate) const RUN_EXAMPLE: &str = "\
SETUP is a TOML file: what the nodes of a network share, and each node with what it offers and wants.
  group = \"239.0.0.1\"
  [[node]]
  name = \"a\"
  address = \"192.168.0.1\"
  client_id = 0x0101
  client_port = 40000
  [[node.offer]]
  service = 0x1111
  instance = 1
  major = 1
  ttl = 3
  port = 30509
  methods = [0x0421]

SCHEDULE has one step a line: what happens to a node. Lines that begin with # are comments.
  tick NODE MS                 deliver N NODE
  call NODE SI METHOD PAYLOAD  oneway NODE SI METHOD PAYLOAD
  answer NODE T CODE PAYLOAD   error NODE T CODE PAYLOAD
  publish NODE SI EVENT PAYLOAD
  publish_to NODE SI GROUP EP EVENT PAYLOAD
  subscribe NODE SI GROUP      unsubscribe NODE SI GROUP
  stop_offer NODE SI           restart NODE DELAY
  inject NODE PORT EP PAYLOAD, where SETUP has `liar = true` for NODE: it runs no node, and sends
  the bytes PAYLOAD from PORT of its own address to EP
So the step
  tick a 10
prints the Offer of node a as datagram 1, which a later `deliver 1 NODE` delivers. The last line is
the verdict: `reuse clean`, or `reuse broken at I` where step I is the first that breaks clean reuse
of keys.

The options change what is printed, and nothing that happens in the run. With --lines, the number
of the line of SCHEDULE stands before each line, and - before the verdict. With --expect, nothing is
printed where the trace is the text of TRACE, and the exit status is 0. Else it is 1, and the first
difference is printed as
  expected LINE
  got LINE
  line N
where N is the line of SCHEDULE by which the second LINE came, and - is what there is none of.
With --begins, the text of TRACE may end before the trace does, also within a line, as the log of a
node does that still runs.";

/// Of `explore`.
pub(crate) const EXPLORE_EXAMPLE: &str = "\
SETUP is that of `run`. MOVES has one move a line: a step of a schedule, or a line with `*`. So
`deliver * NODE` stands for the delivery of each datagram that was sent so far, `deliver * *` for
those to all nodes, and `answer NODE * CODE PAYLOAD` for the answer to each token of NODE. A
schedule of N moves is any N of them, one after the other, each as often as you like; one with a
step that can't happen is none. All schedules of up to N moves are tried, shorter ones first, and
those of one length in the order of MOVES.

GOAL, and the WORDS of --once and --never, are the first words of a line of the trace, without its
number: a node, and what it tells. A schedule reaches GOAL where a line has these words, and before
it one has each of --once, and none has one of --never. So with the lines
  tick a 10
  deliver * b
as MOVES the call
  someipctl explore setup.toml moves.txt 'b known'
prints the shortest schedule after which node b knows an instance of node a, ready for `run`; the
exit status is 1. Where no schedule reaches GOAL it prints
  none within 6 steps, M schedules
with the number of schedules that can happen, and the exit status is 0. Where more than --most can
happen it prints `none of up to L steps, stopped after M schedules`, and the exit status is 1. With
--progress standard error has a line for each million schedules that were judged:
  1000000 schedules";

/// Of `recording`.
pub(crate) const RECORDING_EXAMPLE: &str = "\
A FILE is a recording of classic pcap or pcapng, as tcpdump and Wireshark write it; several are one
recording, in this order. Of each UDP datagram over IPv4 in it the lines are printed that `show`
prints of a datagram of a capture, as it is read. Those that are printed are counted from 1. Packets
without such a datagram are left out, and how many of each kind these are is told on standard error
at the end, which is no fault. A fault of a recording ends all: what comes before it is printed, and
then the fault on standard error. As - a recording comes on standard input:
  tcpdump -i eth0 -U -w - udp | someipctl recording -
PORTS, A, SERVICES, N of --interface and ID are lists with commas between their words, as in
30490,30509. C is four hex digits, and TIME has up to nine decimals. A datagram is printed where each
option lets it through. So the call
  someipctl recording --ports 30509 examples/one.pcap
prints
  1 message 1234.0421 length 8 client 0001 session 0001 interface 01 type REQUEST code 00 payload -
and with --endpoints the same line begins with
  1700000000.000001000 192.168.0.2:40001 192.168.0.1:30509
which are the time in seconds since 1970, - where the recording has none, and where the datagram
came from and went to. With --frames #1 stands before it, the number of the packet in all files.";

/// Of `audit`.
pub(crate) const AUDIT_EXAMPLE: &str = "\
FILE, SERVICES, A, C, TIME, N of --interface, ID and MS are those of `recording`. Datagrams from or to
port 30490 are looked at, and beside these those at the endpoints that Offers and Subscribes before named,
or at PORTS. SERVICES, A, C and TIME choose lines, and not what is looked at. A line
is printed for each thing that is not as it should be, as it is read, and at last the summary. A line is
  TIME K FROM TO FINDING
where TIME is in seconds since 1970, - where the recording has none, and K is the number of the datagram
in all files, counted from 1. Of what had no answer or did not come in time, TIME is when it was due,
and K, FROM and TO are of the request, the first segment, the newest Offer or the Subscribe. So the call
  someipctl audit examples/audit.pcap
prints first
  1700000004.500000000 8 192.168.0.2:40001 192.168.0.1:30509 unanswered 1111.0421 client 0102 session 0002
The exit status is 0 without findings, and 1 with some.";

/// Of `chart`.
pub(crate) const CHART_EXAMPLE: &str = "\
SETUP and SCHEDULE are those of `run`. The picture goes to standard output. So the call
  someipctl chart examples/runs/two.toml examples/runs/two.txt > two.svg
writes a picture of that run, which a browser shows.";

/// Of `services`.
pub(crate) const SERVICES_EXAMPLE: &str = "\
FILE is a recording as for `recording`. An offer or a subscription is printed where it ends, with why:
`stopped`, `expired`, `reboot`, `moved` (offered otherwise), `refused` (by a Nack), `offer` (of what was
offered, a StopOffer), or `open` at the end of the recording. So the call
  someipctl services examples/audit.pcap
prints first
  subscription 1111.0001 major 01 group 0002 192.168.0.3:40002 at 192.168.0.1 from 1700000008.010000000 until 1700000008.012000000 refused
--from and --until choose those that end at or after the one time, and begin before the other.";

/// Of `stats`.
pub(crate) const STATS_EXAMPLE: &str = "\
FILE is a recording as for `recording`, and what `audit` looks at is counted. At the end a line is printed
for each method, event and way of Service Discovery between two endpoints, and for what lacks since there
was no room. Times are milliseconds: the least, the median, the 99th percentile and the greatest. Of these
the two in the middle are told at most a 32nd too low, where they are below 71 minutes. So the call
  someipctl stats examples/audit.pcap
prints first
  method 1111.0421 192.168.0.2:40001 192.168.0.1:30509 calls 5 answers 5 errors 0 unanswered 2 latency 20.000 49.152 2293.760 2300.000
SERVICES, A, C and TIME choose what counts, and not what is looked at.";

/// Of `extract`.
pub(crate) const EXTRACT_EXAMPLE: &str = "\
FILE and the options are those of `recording`, which prints the datagrams that are written here. What is
written is pcapng: the packets of these datagrams, byte for byte, with their times; of a datagram that
came in fragments all of them. So the call
  someipctl extract --ports 30509 examples/one.pcap > part.pcapng
writes the packet of which `someipctl recording part.pcapng` prints
  1 message 1234.0421 length 8 client 0001 session 0001 interface 01 type REQUEST code 00 payload -
What a file of pcapng can't say is told on standard error: a packet whose block would have more than
16 MiB is left out, and the time of one without a time is 0.";
