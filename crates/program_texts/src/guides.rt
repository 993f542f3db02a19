//! What is said of the commands. `tools/made` writes this file from docs/COMMANDS.md.

/// The commands, a line each with its words.
pub const GUIDE: &str = r#"make BOARD [--keep OLD] [--out PLAN [--anew]] [--certificate FILE]
                             the plan that is made of a board, which is a short TOML text
rows PLAN                    the plan with rows by which all its nodes reach each other
check PLAN CERT              whether the certificate fits the plan
certify PLAN                 the certificate of the plan, or why it has none
move OLD NEW CERT            whether nodes may go over from the old plan's rows to the new one's
certifymove OLD NEW          the certificate of a move from the old plan's rows to the new one's
diff OLD NEW                 what a change from one plan to another does
rollout OLD NEW [--write DIR]
                             the steps from the old plan's rows to the new one's, each a move
assign PLAN CERT             the requests that give the nodes their endpoint IDs and pools
sim PLAN CERT EVENTS         what comes of events in the planned network
expect PLAN CERT EVENTS LINES
                             whether sim prints these lines, or the first one that differs
script PLAN CERT walk NODE EID COUNT [--lose N,N] [--repeat N,N]
                             the events of a whole walk over the network, made as it runs
simmove OLD NEW CERT EVENTS  the same while nodes go over to new rows
walk PLAN CERT NODE COUNT    the records that a walk over a node's terminus collects
export linux|mctpd|devicetree|c|entries|records PLAN CERT NODE [--link BUS=DEV]..
                             what a node takes from the plan: scripts, a device tree, a C source, answers or records
reach PLAN CERT [--json]     who reaches whom, and in how many hops
matrix PLAN CERT             the same as a table that a person reads
require PLAN CERT WANTED     whether the nodes reach whom a text wants them to reach
trace PLAN CERT FROM TO [--json]
                             the way of a packet from a node to another, or to an endpoint ID
draw PLAN [CERT] [--rows [EID]]
                             the planned network, or where its rows lead, as a drawing for Graphviz
explain PLAN [CERT [EVENTS]] [--json]
                             what certify says of the plan, or check of both, and why
explain OLD --move NEW       what certifymove says of the move, and why
faults PLAN [CERT] [--json|--sarif]
                             each place where a rule is broken, and how many they are
fix PLAN                     the plan with edits made, until it has a certificate
lint PLAN [--json]           what is lawful in the plan and still looks wrong, or clean
verify FOLDER [--strict]     whether all that a repository has of a network fits together
show packet HEX              what the bytes of a packet are
show record HEX              what the bytes of a platform descriptor record are
decode CAPTURE [PLAN]        what was captured of a bus: each packet, and what its message says
audit PLAN CERT CAPTURE [--bus BUS] [--complete]
                             what captured devices said, laid beside the plan
emulate PLAN CERT NODE [--configured] [--addresses] [--end]
                             a planned node that answers packets, line by line
capture PLAN CERT EVENTS     what comes of events in the planned network, as a capture file
report PLAN [CERT]           a page about the plan for a review, in HTML
describe HEX..               every field of a record by its name, with the standard's words
record KIND FIELD=VALUE..    the bytes of a record, from its fields
code CODE                    what a code, as C08 or N03, means, and what to do
schema plan|certificate|events|board|answer
                             the JSON schema of such a text, for an editor
guide [COMMAND]              this list, or more on one command
version                      which version this is, and which formats it reads
"#;

/// The version, and the formats that are read.
pub const VERSION: &str = r#"mctpplan 0.9.0 and later changes
reads plans of formats 1 and 2, certificates of format 1, events of formats 1 to 3
"#;

/// What is said of a command, if it is one.
pub fn guide_to(command: &str) -> Option<&'static str> {
    match command {
        "make" => Some(OF_MAKE),
        "rows" => Some(OF_ROWS),
        "check" => Some(OF_CHECK),
        "certify" => Some(OF_CERTIFY),
        "move" => Some(OF_MOVE),
        "certifymove" => Some(OF_CERTIFYMOVE),
        "diff" => Some(OF_DIFF),
        "rollout" => Some(OF_ROLLOUT),
        "assign" => Some(OF_ASSIGN),
        "sim" => Some(OF_SIM),
        "expect" => Some(OF_EXPECT),
        "script" => Some(OF_SCRIPT),
        "simmove" => Some(OF_SIMMOVE),
        "walk" => Some(OF_WALK),
        "export" => Some(OF_EXPORT),
        "reach" => Some(OF_REACH),
        "matrix" => Some(OF_MATRIX),
        "require" => Some(OF_REQUIRE),
        "trace" => Some(OF_TRACE),
        "draw" => Some(OF_DRAW),
        "explain" => Some(OF_EXPLAIN),
        "faults" => Some(OF_FAULTS),
        "fix" => Some(OF_FIX),
        "lint" => Some(OF_LINT),
        "verify" => Some(OF_VERIFY),
        "show" => Some(OF_SHOW),
        "decode" => Some(OF_DECODE),
        "audit" => Some(OF_AUDIT),
        "emulate" => Some(OF_EMULATE),
        "capture" => Some(OF_CAPTURE),
        "report" => Some(OF_REPORT),
        "describe" => Some(OF_DESCRIBE),
        "record" => Some(OF_RECORD),
        "code" => Some(OF_CODE),
        "schema" => Some(OF_SCHEMA),
        "guide" => Some(OF_GUIDE),
        "version" => Some(OF_VERSION),
        _ => None,
    }
}

const OF_MAKE: &str = r#"mctpplan make BOARD [--keep OLD] [--out PLAN [--anew]] [--certificate FILE]

Prints a plan that is made of what an engineer decides: the buses, the nodes on them, who owns whom.
What the board leaves out is found, as endpoint IDs, pools, rows and the bytes of records; what it
gives is kept. The plan is judged before it is printed: it has a certificate, all that the board
gives is in it, and each node reaches those that it is to reach. docs/BOARD.md says what may stand
in a board, and what each reason means. One that begins with no plan: no and a space is true of the
board, whichever endpoint IDs, pools and rows are chosen of those that it leaves out. Files that its
records name are read from the board's folder, or from the working folder where the board is -.

With --keep the numbers of the plan OLD stay wherever they can: a node of the same name keeps its
endpoint ID and the place of its pool. Standard error has a line for each that differs, moved, new
or gone, and then how many were kept. docs/BOARD.md says which numbers stay.

With --out the plan is written to PLAN, and how many numbers were kept is printed in its place. If
PLAN is there already, its numbers are kept as by --keep, but with --anew. With --certificate the
certificate that certify makes of the plan is written to FILE. The plan is printed behind that.
Where no plan is made, both files are left as they are.

Status 0: the plan.
Status 1: why no plan can be made, or that none was found.
Status 2: where the board, or a file that it names, can't be read, with what stands there and what
may; where OLD can't be read, or a file can't be written.

  $ mctpplan make examples/board/riser.toml --certificate certificate.json > plan.json
  $ mctpplan check plan.json certificate.json
  yes
"#;

const OF_ROWS: &str = r#"mctpplan rows PLAN

Prints the plan with rows along ways of the fewest hops over buses and bridges, so that each node
reaches every other. Rows that it has are kept, and what is made fills what they leave. The plan is
judged before it is printed, as that of make is: it has a certificate, it differs from the given one
in rows alone, and each node reaches every other. A plan of which that is so already is printed as
it stands.

Status 0: the plan.
Status 1: why it can't be made.

  $ mctpplan rows examples/questions/plan-without-rows.json > plan.json
  $ mctpplan certify plan.json > certificate.json
  $ mctpplan reach plan.json certificate.json | tail -n 1
  pairs 12 reached 12 one-way 0
"#;

const OF_CHECK: &str = r#"mctpplan check PLAN CERT

Prints yes if the plan and its certificate meet every rule, C01 to C16, or else the first fault.

Status 0: yes.
Status 1: a fault.

  $ mctpplan check examples/riser/plan.json examples/riser/certificate.json
  yes
  $ mctpplan certify examples/riser/plan.json | mctpplan check examples/riser/plan.json -
  yes
"#;

const OF_CERTIFY: &str = r#"mctpplan certify PLAN

Prints the certificate of the plan in one line, or why there is none: a fault of the plan, a loop of
owners, a routing loop, or a chain of records that is broken.

Status 0: the certificate.
Status 1: why there is none.

  $ mctpplan certify examples/riser/plan.json > certificate.json
"#;

const OF_MOVE: &str = r#"mctpplan move OLD NEW CERT

Prints yes if the nodes of a running network may go over from the rows of one plan to those of
another, in any order and at any time, with one certificate for both; or else the first fault.

Status 0: yes.
Status 1: a fault.

  $ mctpplan move examples/move/by-left.json examples/move/by-right.json examples/move/certificate-1.json
  yes
"#;

const OF_CERTIFYMOVE: &str = r#"mctpplan certifymove OLD NEW

Prints the certificate of the move in one line, which move accepts, or why there is none. Its ranks
are the lengths of the longest ways along rows of either plan. What rules certificates out is told
in the order in which move asks: a fault whatever the certificate, what certify says of the old
plan, or a loop along rows of both plans, with the plan of each row behind by.

Status 0: the certificate.
Status 1: why there is none.

  $ mctpplan certifymove examples/move/to-left.json examples/move/to-right.json
  loop eid 17 nodes left right left by new old
"#;

const OF_DIFF: &str = r#"mctpplan diff OLD NEW

Compares the plans by the names of buses and nodes. Each thing of the old plan that the new one has
not, or has otherwise, is a line that begins with removed or changed, in the old plan's order; then
each that only the new one has is a line with added, in its order. Things are the transmission unit,
buses, nodes with their kind, endpoint ID and owner, pools, ports by their indices, rows by their
first endpoint IDs, termini with their terminus IDs, and records by their handles. Where only the
order of lists differs, or how often the same thing stands in one, the one line is changed order of
lists.

Where both plans have a certificate, a line follows for each way between two nodes of both plans
that is removed, added or changed, with the hops of a packet, and then a line with what rollout
needs: any order, so many steps, what is stuck, or the line of certifymove where the plans differ in
more than rows. Otherwise the line of certify stands behind old:  or new:  for each plan that has
none.

Status 0: the plans are the same. Nothing is printed.
Status 1: the plans differ.

  $ mctpplan diff examples/move/to-left.json examples/move/to-right.json
  changed row 17 of host: size 1 port 0 next left -> size 1 port 0 next right
  changed row 17 of left: size 1 port 1 next x -> size 1 port 0 next right
  changed row 17 of right: size 1 port 0 next left -> size 1 port 1 next x
  changed way from left to x: hops 1 -> hops 2
  changed way from right to x: hops 2 -> hops 1
  rollout: 2 steps
"#;

const OF_ROLLOUT: &str = r#"mctpplan rollout OLD NEW [--write DIR]

Prints any order where one certificate serves for the whole move. Else it prints steps. Each is a
move with a certificate of its own, so that its nodes may go over in any order, and it is finished
before the next one begins. In step 1 switch A B these nodes take all their new rows. In step 1 rows
of A: 10-12 by B node A sends what is for these endpoint IDs to B, as its new rows do, and all else
as before; by - stands where no new row is for them. A step of parts has a line for each. The last
step ends in the new plan. That the steps are the fewest is not promised.

With --write three files of each step K are written into the folder DIR, before the steps are
printed; any order is one step. With ten steps or more K has leading zeros. DIR has to be there.
Files of these names are replaced, and others are left as they are. Where no steps lead to the new
plan, nothing is written. Where a file can't be written, standard error tells its path, no steps are
printed, and the files before it stay. The files are these:

- step-K.json: the plan after the step; that of the last step is the new plan.
- step-K.cert.json: the certificate of that plan, as certify makes it. check takes the two.
- step-K.move.json: the certificate of the move to it, as certifymove makes it. move and simmove
  take it behind the plan before the step and the plan after. For check it may say too much (C16).

Status 0: any order, or the steps.
Status 1: what certifymove says, where a plan has no certificate by itself, or where they differ in
more than rows.
Status 1: the steps as far as they go, stuck, and what stands in the way of the move from there to
the new plan.
Status 1: no files: .., where a text that was made of a plan doesn't read as it, or a plan between
has no certificate. Neither should come.

  $ mkdir steps
  $ mctpplan rollout examples/move/to-left.json examples/move/to-right.json --write steps
  step 1 switch host right
  step 2 switch left
  $ mctpplan check steps/step-1.json steps/step-1.cert.json
  yes
  $ mctpplan move steps/step-1.json steps/step-2.json steps/step-2.move.json
  yes
"#;

const OF_ASSIGN: &str = r#"mctpplan assign PLAN CERT

Prints the control messages by which the nodes get their endpoint IDs and pools, in the order in
which they are sent. Each line has the bus, the node and the message in hex.

Status 0: the requests.
Status 1: a fault of the plan or the certificate.

  $ mctpplan assign examples/riser/plan.json examples/riser/certificate.json
  b0 riser 0080010010
  b0 riser 008008000711
  b1 nic 0080010011
  b1 ssd 0080010012
"#;

const OF_SIM: &str = r#"mctpplan sim PLAN CERT EVENTS

Plays events in the network of the plan, and prints for each event a line with its number and what
came of it.

Status 0: what came of the events, also where some were refused.
Status 1: a fault of the plan or the certificate.

  $ mctpplan sim examples/riser/plan.json examples/riser/certificate.json examples/riser/events-to-ssd.json
  1 put 1 at host
  2 moved 1 to riser hops 1
  3 moved 1 to ssd hops 2
  4 whole 1 at ssd bytes 01800002
"#;

const OF_EXPECT: &str = r#"mctpplan expect PLAN CERT EVENTS LINES

Plays events as sim does and compares what it prints with LINES, a file of such lines. Prints yes,
or the first line that differs: its number, what was expected and what came. Where the plan or the
certificate has a fault, sim prints its line, and that line is compared.

Status 0: yes.
Status 1: the first line that differs.

  $ mctpplan sim examples/riser/plan.json examples/riser/certificate.json examples/riser/events-to-ssd.json \
      | sed 's/hops 2/hops 3/' > lines
  $ mctpplan expect examples/riser/plan.json examples/riser/certificate.json \
      examples/riser/events-to-ssd.json lines
  line 3 differs
  expected: 3 moved 1 to ssd hops 3
  came: 3 moved 1 to ssd hops 2
"#;

const OF_SCRIPT: &str = r#"mctpplan script PLAN CERT walk NODE EID COUNT [--lose N,N] [--repeat N,N]

Prints events, as sim plays them, of a walk in which NODE reads the records of the terminus with
endpoint ID EID, by requests of COUNT bytes each: 8 to 4079, and no more than five packets carry,
303 at the unit of 64. They are made as the network plays them, request by request: packets move hop
by hop, and where a packet is lost, the request is put in again. The packets with the numbers behind
--lose are lost, and those behind --repeat come twice. Packets are numbered from 1, in the order in
which they are put in, copies too.

Before the events are printed they are read from their text and played once more: the last one,
collected, tells that the walk is done, with all records. Where the walk doesn't go on, the line of
sim is printed that tells why. A list has at most 100,000 events; where that is not enough, the line
of the last one is printed.

Status 0: the events.
Status 1: where the walk doesn't go on; or a fault of the plan or the certificate. (Where what was
made doesn't read back, a line says so, which would be a fault of the program.)

  $ mctpplan script examples/riser/plan.json examples/riser/certificate.json walk host 17 64 \
      --lose 1 > events.json
  $ mctpplan sim examples/riser/plan.json examples/riser/certificate.json events.json | tail -n 1
  12 collected 1 records 1 done
"#;

const OF_SIMMOVE: &str = r#"mctpplan simmove OLD NEW CERT EVENTS

Plays events in the network of the old plan, whose nodes go over to the rows of the new one by the
event switch.

Status 0: what came of the events, also where some were refused.
Status 1: a fault of the move.

  $ mctpplan simmove examples/move/by-left.json examples/move/by-right.json \
      examples/move/certificate-1.json examples/move/events-first.json | tail -n 2
  7 refused N03
  8 whole 2 at x bytes 01800002
"#;

const OF_WALK: &str = r#"mctpplan walk PLAN CERT NODE COUNT

Reads the records of the node's terminus with GetPDR requests of COUNT bytes each, 8 to 4079. Prints
a line for each record, and then how many records and requests there were.

Status 0: the records.
Status 1: a fault of the plan or the certificate.

  $ mctpplan walk examples/riser/plan.json examples/riser/certificate.json nic 16
  record 1 length 9
  records 1 requests 2
"#;

const OF_EXPORT: &str =
    r#"mctpplan export linux|mctpd|devicetree|c|entries|records PLAN CERT NODE [--link BUS=DEV]..

Prints what the first node of the name NODE has by the plan. Rows stand in the order of their
endpoint IDs, and records in the order of the certificate's places. There are six forms:

- linux: a shell script with the commands of the tool mctp that give a Linux node its state: each
  device is set up, with the plan's transmission unit and four bytes of header as MTU; the node has
  its endpoint ID there; each row is a route, and each of its endpoint IDs a neighbour with the next
  node's address. The script may run twice: what it adds may be there already (|| true), and stays
  as it is then. A device has the name of its bus, or what --link says, once for each bus and each
  device: 1 to 15 letters, digits, -, . and _. Over SMBus and I2C Linux has the 7 bits of an address
  alone, so the plan's address 20 is 0x10 there. Over I3C Linux names a neighbour by its provisioned
  ID (PID), which is an address of six bytes in the plan, the highest byte first. Where the plan has
  another address there, the line is a comment that begins # no PID in the plan:.
- mctpd: a shell script for a Linux node on which the daemon mctpd runs. It writes mctpd.conf (or
  the file that MCTPD_CONF names): mode is bus-owner, with the node's pool as dynamic_eid_range, or
  endpoint where the node has no pool. Then it has a call of AssignEndpointStatic by busctl for each
  node that this one owns, in the plan's order: over the bus of the owned node's lowest port that
  both share, as assign asks it. Addresses and devices are those of linux; where the plan has no
  address, or over I3C no provisioned ID, the line is a comment. The words are those of mctpd 2.2.
- devicetree: the node's buses for the device tree of its Linux kernel, in the plan's order: over
  SMBus and I2C an mctp-i2c-controller with the node's own address, over I3C the word mctp-
  controller, and for another binding a comment. A controller has the name of its bus as its label,
  or what --link says, with _ for what is no letter or digit. The words are those of Linux 6.7.
- c: a C99 source with the plan's transmission unit, the node's endpoint ID, its pool, its rows and,
  for a terminus, the records in one array of bytes, with an index of handles, offsets and lengths.
  Each name begins with that of the node, with _ for what is no letter or digit, and with node_
  before one that begins with no letter. The types struct mctpplan_row and struct mctpplan_record
  are those of all nodes, behind the guard MCTPPLAN_TYPES, so that one source can take in those of
  several nodes. No line has more than 100 columns.
- entries: the answers of a bridge to Get Routing Table Entries, from the first entry to the last,
  each in a line in hex, with instance ID 0.
- records: the bytes of the records of a terminus, one record after another.

Status 0: the node in this form.
Status 1: a fault of the plan or the certificate.
Status 2: also where no node has the name; where the node is no bridge, for entries, or has no
terminus, for records; or where the plan has no bus of a link.

  $ mctpplan export linux examples/riser/plan.json examples/riser/certificate.json nic --link b1=mctpi2c1
  #!/bin/sh
  # The planned state of the node nic. Made by mctpplan export linux.
  # `|| true` stands where a thing may be there already, from an earlier run.
  set -e
  mctp link set mctpi2c1 up # bus b1
  mctp link set mctpi2c1 mtu 68 # bus b1
  mctp addr add 17 dev mctpi2c1 || true # node nic
  mctp route add 8-16 via mctpi2c1 || true # to riser
  mctp neigh add 8 dev mctpi2c1 lladdr 0x11 || true # of riser
  mctp neigh add 9 dev mctpi2c1 lladdr 0x11 || true # of riser
  mctp neigh add 10 dev mctpi2c1 lladdr 0x11 || true # of riser
  mctp neigh add 11 dev mctpi2c1 lladdr 0x11 || true # of riser
  mctp neigh add 12 dev mctpi2c1 lladdr 0x11 || true # of riser
  mctp neigh add 13 dev mctpi2c1 lladdr 0x11 || true # of riser
  mctp neigh add 14 dev mctpi2c1 lladdr 0x11 || true # of riser
  mctp neigh add 15 dev mctpi2c1 lladdr 0x11 || true # of riser
  mctp neigh add 16 dev mctpi2c1 lladdr 0x11 || true # of riser
"#;

const OF_REACH: &str = r#"mctpplan reach PLAN CERT [--json]

Prints for each two different nodes how many hops a packet of the first makes to the second, or
none, and then how many pairs there are, how many have a way there, and how many of these have none
back. With --json the same is one JSON value.

Status 0: the pairs.
Status 1: a fault of the plan or the certificate.

  $ mctpplan reach examples/riser/plan.json examples/riser/certificate.json | tail -n 2
  ssd nic none
  pairs 12 reached 10 one-way 0
"#;

const OF_MATRIX: &str = r#"mctpplan matrix PLAN CERT

Prints a table with a row and a column for each node, in the order of the plan and by number from 1:
how many hops a packet of the row's node makes to the column's node, a dash where it doesn't arrive,
and a dot for the node itself. Each row ends with its node's name.

Status 0: the table.
Status 1: a fault of the plan or the certificate.

  $ mctpplan matrix examples/riser/plan.json examples/riser/certificate.json
        1  2  3  4
    1   .  1  2  2  host
    2   1  .  1  1  riser
    3   2  1  .  -  nic
    4   2  1  -  .  ssd
"#;

const OF_REQUIRE: &str = r#"mctpplan require PLAN CERT WANTED

Prints yes if packets reach whom they are to reach and nobody else that is named, or else each line
of WANTED of which it isn't so. A line A B says that packets of node A are to reach node B, A -> *
that they are to reach every node, and A -/> B that they must not reach B. A line that is empty or
begins with # is a remark. Where WANTED can't be read, its line and column are told on standard
output.

Status 0: yes.
Status 1: the lines that don't hold, or a fault of the plan or the certificate.
Status 2: here also where WANTED can't be read, and where.

  $ printf 'host -> *\nnic ssd\n' | mctpplan require examples/riser/plan.json examples/riser/certificate.json -
  nic ssd
"#;

const OF_TRACE: &str = r#"mctpplan trace PLAN CERT FROM TO [--json]

Prints the way of a packet that the node FROM sends, a line for each hop. TO is the name of a node,
or else an endpoint ID, 8 to 254. The last line says that the packet arrives, or where it is dropped
and why. With --json the same is one JSON value.

Status 0: the way, also where the packet doesn't arrive.
Status 1: a fault of the plan or the certificate.

  $ mctpplan trace examples/riser/plan.json examples/riser/certificate.json host ssd
  1 host port 0 bus b0 address 20 to riser
  2 riser port 1 bus b1 address 32 to ssd
  hops 2
"#;

const OF_DRAW: &str = r#"mctpplan draw PLAN [CERT] [--rows [EID]]

Prints the planned network in the language DOT of Graphviz: buses, nodes, ports and owners. Octagons
are bridges, rounded boxes are endpoints, and a node with a terminus has a double outline. The nodes
of a loop that rules certificates out are red, and so are the arrows along it, with the endpoint ID
for which packets go round. With a certificate that fits the plan, levels and ranks are tooltips;
where it does not fit, the first fault is printed.

With --rows, at the end where no endpoint ID stands behind it, arrows stand in place of buses and
ports: from each node to each next node, with what the rows between them cover. With an endpoint ID
behind it, 8 to 254, there is an arrow from each node that sends packets for it on, with how many
hops they still make; or stops, or goes round. The arrows of a loop are red.

Status 0: the drawing, also of a plan with faults.
Status 1: a fault of the plan or the certificate, where there is a certificate.

  $ mctpplan draw examples/riser/plan.json > riser.dot
  $ mctpplan draw examples/riser/plan.json --rows 18 | grep -e '->'
      node_0 -> node_1 [label="2"];
      node_1 -> node_3 [label="1"];
"#;

const OF_EXPLAIN: &str = r#"mctpplan explain PLAN [CERT [EVENTS]] [--json]

Prints the line that certify prints of the plan, with CERT that of check, and where in the plan's
text that stands: the file, the line and the column, and the JSON pointer. Then it says why: the
cause of a fault in the plan's own names and numbers, and who else is involved; or the way round a
loop, a line a hop. At most three edits follow that were tried, each with the JSON pointer, the node
and the value: then: yes says that the plan has a certificate with just this changed, and another
line behind then: what certify then prints. Where there are more faults, the last line says how
many, and by which words faults lists them.

In place of a certificate stands yes, how many nodes, buses, rows and records there are, and between
which two nodes the certificate allows most hops. Where the text of a plan or a certificate has a
fault, it tells the line and column of the first one, and where it is JSON the pointer, what stands
there, and what may stand there; of a name that nothing has the nearest name, and of what stands
twice both lines. A text that is too long has no such place. With EVENTS it does the same of a list
of events that can't be read, where the certificate fits the plan. Of a file that can't be opened it
tells the path and the system's reason on standard error.

With --json, which doesn't go with EVENTS, all of this is one JSON value: the line, the places, the
sentences, and the edits with what certify then prints. schema answer prints the JSON schema of such
values.

Status 0: nothing is wrong.
Status 1: what is wrong, and why.
Status 2: here also why a text can't be read.

  $ mctpplan explain examples/explained/c08-peer.json
  fault C08 node baseboard entry - eid 10
  examples/explained/c08-peer.json:38:53: /nodes/2/eid
  baseboard has endpoint ID 10.
  It is in the pool of switch: 10 to 31.
  Both are owned by bmc.
  Edit: set /nodes/1/pool of switch to { "first": 11, "size": 21 }
  then: yes
  Edit: set /nodes/2/eid of baseboard to 48
  then: yes
  Edit: set /nodes/2/eid of baseboard to 49
  then: yes

mctpplan explain OLD --move NEW

Prints the line that certifymove prints of the move from the old plan to the new one, and then why.
What rules certificates of one of the plans out by itself is explained as explain does it of that
plan, with its file. Of a loop along rows of both plans each hop is told: the file whose row it is,
the line, the column and the JSON pointer, and then Old or New with the row, its node, its endpoint
IDs, the next node and the port to it. Of M02 that is told of the row at fault, and where the next
node has none in the other plan; of M01 what is not the same, and where that stands in each plan.
Behind a loop and M02 it says whether the new plan has a certificate by itself, and what helps.

In place of a certificate stands yes, and what sums the old plan up, with the most hops that the
certificate of the move allows. Of two plans that can't be read the old one is told, and the new one
is not read.

Status 0: the move has a certificate.
Status 1: why it has none.
Status 2: here also why a text can't be read.

  $ mctpplan explain examples/move/to-left.json --move examples/move/to-right.json
  loop eid 17 nodes left right left by new old
  examples/move/to-right.json:3:140: /nodes/1/rows/0
  New row 0 of left: first 17 size 1 via right port 0
  examples/move/to-left.json:4:141: /nodes/2/rows/0
  Old row 0 of right: first 17 size 1 via left port 0
  While the nodes of new rows have switched and those of old rows have not, what is for
  endpoint ID 17 circles. The ranks of a certificate would have to fall all the way round.
  By itself the new plan has a certificate.
  Hint: look for several moves that lead there: mctpplan rollout examples/move/to-left.json examples/move/to-right.json
"#;

const OF_FAULTS: &str = r#"mctpplan faults PLAN [CERT] [--json|--sarif]

Prints all that rules certificates of the plan out, a line each, and how many lines there are, or
yes: each place where it breaks a rule, each loop of owners and of packets once, and each node whose
records make no chain. Of a loop or a chain the line is that of certify; of a loop of packets it has
the least endpoint ID that goes round, and how many more do. With CERT it prints each place where
the plan or the certificate breaks a rule: what then goes wrong with a loop or a chain are such
places.

Each line ends with the file, the line and the column of the value at fault in the plan's text.
Faults at neighboring endpoint IDs of a row, a record or a node are one line.

With --json the faults are one JSON value, and with --sarif a log of SARIF 2.1.0, by which a code
review shows each fault at its line.

Status 0: yes. A plan alone has a certificate then, and with status 1 it has none.
Status 1: the faults.

  $ mctpplan faults examples/riser/plan.json
  yes
"#;

const OF_FIX: &str = r#"mctpplan fix PLAN

Prints the text of the plan with the edits made that explain proposes: the first one of what certify
prints, then the first one of what is left, and so on until the plan has a certificate. Each edit is
a line on standard error, as explain has it. Nothing else of the plan is changed, and of its text
nothing but the values that the edits name: layout and the order of the keys stay. A plan that has a
certificate is printed as it is.

Where something is left that no edit takes away, or after a thousand edits, no text is printed, but
the line that certify prints of what is left. A plan that has a certificate needn't be the one that
was meant: read the edits before you take it.

Status 0: the plan's text. The plan has a certificate.
Status 1: what is left.
Status 2: here also why a text can't be read, as explain says it.

  $ mctpplan fix examples/explained/c08-peer.json > fixed.json
  Edit: set /nodes/1/pool of switch to { "first": 11, "size": 21 }
  $ diff examples/explained/c08-peer.json fixed.json
  24c24
  <       "pool": { "first": 10, "size": 22 },
  ---
  >       "pool": { "first": 11, "size": 21 },
  $ mctpplan certify fixed.json | mctpplan check fixed.json -
  yes
"#;

const OF_LINT: &str = r#"mctpplan lint PLAN [--json]

Prints what is lawful in the plan and still looks wrong, a line each with a code, or clean. code
tells what a code means. With --json the findings are one JSON value.

Status 0: clean.
Status 1: what looks wrong.

  $ mctpplan lint examples/riser/plan.json
  clean
"#;

const OF_VERIFY: &str = r#"mctpplan verify FOLDER [--strict]

Judges what a folder has of a network, and prints a line for each part that is there. ok stands
behind a part that holds, and failed behind one that doesn't, with the lines below it, further in,
by which its own command says why:

A part that needs a certificate that fits, and has none, says skipped and has failed. The last line
counts the parts. The files that the records of the board name are read from the folder. What can't
be read ends the command, and nothing else is told: standard error has the line by which other
commands tell it, and the path of the file in the folder.

- board: plan.json is, byte for byte, what make --keep of it makes of board.toml, if there is one.
- check: certificate.json fits the plan. Where there is none, the plan has a certificate.
- faults: nothing rules certificates of the plan out.
- lint: nothing in the plan looks wrong. What does is noted and doesn't count, but with --strict.
- require: each line of wanted.txt holds, if there is one.
- run NAME: sim prints the lines of runs/NAME.txt for the events of runs/NAME.json, as expect
  compares them. The runs are judged in the order of their names.

Status 0: each part holds.
Status 1: a part failed.
Status 2: where plan.json is missing, one of the two files of a run is, or a file can't be read.

  $ mctpplan verify examples/repository
  board ok
  check ok
  faults ok
  lint ok
  require ok
  run walk ok
  verified 6
"#;

const OF_SHOW: &str = r#"mctpplan show packet HEX

Prints the header fields and the payload of an MCTP packet of the baseline transmission unit.

Status 0: the packet.
Status 1: why the bytes are no packet, P01 to P04.

  $ mctpplan show packet 011108cb01800002
  packet reserved 0 destination 17 source 8 som 1 eom 1 number 0 owner 1 tag 3 payload 01800002

mctpplan show record HEX

Prints the header fields of a Platform Descriptor Record and, in a second line, what its type has.

Status 0: the record.
Status 1: why the bytes are no record, D01 to D06.

  $ mctpplan show record 01000000010100000900010001010000010110
  record handle 1 type 1 change 0 length 9
  terminus 1 validity 1 tid 1 container 0 locator 1 value 10
"#;

const OF_DECODE: &str = r#"mctpplan decode CAPTURE [PLAN]

Reads a capture file (pcap or pcapng) or a text of hex lines, and prints a line for each entry with
its number, and its time, its interface and its direction where the capture has them: the packet,
and whether it is held, dropped or ends a message. What was cut or is of another link type is told,
and passed over. Behind the last packet of a message stands what the message says. Packets to one
destination on one interface are joined as its assembler would, 16 messages at a time. With PLAN,
which isn't checked, the line of a packet ends with the names of the nodes that hold its source and
its destination, and packets may be as long as the plan's transmission unit allows. Without it they
have at most 64 payload bytes.

Status 0: the entries.
Status 2: also where the capture can't be read to its end. What stands before is told.

  $ mctpplan decode examples/captures/nic.log
  1 sent message 01800002
  pldm request instance 0 type 0 command 2 data 
  2 received message 010000020001
  pldm response instance 0 type 0 command 2 data 0001
  entries 2
"#;

const OF_AUDIT: &str = r#"mctpplan audit PLAN CERT CAPTURE [--bus BUS] [--complete]

Reads a capture as decode does with the plan, and prints what the answers of each node say, in the
plan's order: first of its routing table, then of its endpoint ID and type, then of its pool, of its
terminus ID and of its records. Answers that fail are told by their completion codes. Of a node
without an answer it says not captured, or how many requests to it were captured, as asked 3, never
answered: neither is a difference. Then it tells devices that took an endpoint ID which no node
holds, answers that nobody asked for, as those with another tag or instance ID than the request's,
and which packets the plan doesn't have: from or to such an endpoint ID, and between two nodes
without a way. With --complete it tells of each node too what it didn't say: its endpoint ID, a
bridge its routing table and its pool, a terminus its records. With --bus the capture was taken on
that bus, and a packet whose planned way doesn't go over it is told too. The last line says whether
all is as planned, or how many lines tell a difference, or that nothing was compared: no device said
anything of its routing table, its endpoint ID, its pool or its records, as in an empty capture.
Behind that it has the number of nodes that were compared, of all nodes, of packets, and of entries
that were refused. Where some were, a line tells the first one.

Status 0: audit match.
Status 1: audit differs and how many lines tell a difference; audit saw nothing of the plan; or the
first fault of the plan and its certificate.
Status 2: also where the plan has no bus of the name, or where the capture can't be read to its end.
Where a part of it could be read, that is told, and last audit incomplete and how many lines of it
tell a difference.

  $ mctpplan audit examples/riser/plan.json examples/riser/certificate.json examples/captures/lost-row.txt
  host not captured
  riser routes missing 18 size 1
  riser eid match 16
  riser pool match 17 to 23
  nic eid match 17
  ssd not captured
  audit differs 1: 2 of 4 nodes, 10 packets, 0 refused
"#;

const OF_EMULATE: &str = r#"mctpplan emulate PLAN CERT NODE [--configured] [--addresses] [--end]

Reads a line a packet from standard input, the name of a bus and the packet in hex, and prints what
the node sends for it, in lines of the same form, before it reads the next one. The node answers
control messages with its planned routing table and requests for records with its planned records,
and a bridge sends on what is for others by its rows. With --configured it has its endpoint ID and
its pool from the start; otherwise they are given to it, as assign does. On standard error a line
that begins with # says of a line that is passed over, or of a packet that is dropped, why.

With --addresses the physical address to which a packet is sent stands behind the bus, in hex. A
packet to an address that isn't the node's changes nothing. What the node sends goes to the next
node of its row for the destination. With --end a line . stands behind what is sent for each line
that isn't empty.

Status 0: standard input has ended.
Status 1: a fault of the plan or the certificate.
Status 2: also where the plan has no node of the name, or where a line has more than 65,535 bytes;
the lines before it are answered.

  $ echo "b1 011110c8008002" | \
        mctpplan emulate examples/riser/plan.json examples/riser/certificate.json nic --configured
  b1 011011c000000200110000
  $ printf 'b1 30 011110c8008002\nb1 32 011210c8008002\n' | \
        mctpplan emulate examples/riser/plan.json examples/riser/certificate.json nic --configured --addresses --end
  b1 22 011011c000000200110000
  .
  .
"#;

const OF_CAPTURE: &str = r#"mctpplan capture PLAN CERT EVENTS

Plays events as sim does, and prints a capture file (pcap, Linux cooked capture v2) with a packet
for each hop: at the second that is the event's number, over the interface that is the bus's number
in the plan, from 1, with the physical address of the node that sends it. decode reads it, and so do
the usual tools.

Status 0: the capture file.
Status 1: a fault of the plan or the certificate.

  $ mctpplan capture examples/riser/plan.json examples/riser/certificate.json examples/riser/events-to-ssd.json > run.pcap
  $ mctpplan decode run.pcap examples/riser/plan.json
  1 time 2.000000000 ifindex 1 in whole packet reserved 0 destination 18 source 8 som 1 eom 1 number 0 owner 1 tag 3 payload 01800002 from host to ssd
  pldm request instance 0 type 0 command 2 data 
  2 time 3.000000000 ifindex 2 in whole packet reserved 0 destination 18 source 8 som 1 eom 1 number 0 owner 1 tag 3 payload 01800002 from host to ssd
  pldm request instance 0 type 0 command 2 data 
  entries 2
"#;

const OF_REPORT: &str = r#"mctpplan report PLAN [CERT]

Prints one HTML page that needs no other file: what certify says of the plan, with CERT what check
says of both; the network as a picture; its buses, nodes, rows, pools and records; in how many hops
who reaches whom; what lint finds; and what is promised of the plan and what is not.

Status 0: the page of a plan that has a certificate, with CERT of one that it fits.
Status 1: the page of another plan.

  $ mctpplan report examples/riser/plan.json examples/riser/certificate.json > report.html
"#;

const OF_DESCRIBE: &str = r#"mctpplan describe HEX..

Prints a line for each field of a Platform Descriptor Record: its name, what it holds, and for some
the standard's word for that (DSP0248, DSP0249). The hex may stand in several words, with spaces,
and with 0x before its numbers. Of a real number the bits stand first, and its decimal digits behind
them.

Status 0: the fields.
Status 1: why the bytes are no record, D01 to D06.

  $ mctpplan describe 01000000 01 01 0000 0900 0000 01 14 0000 01 01 25 | tail -n 4
  tid 20
  container-id 0
  locator-type 1 MCTP endpoint ID
  eid 37
"#;

const OF_RECORD: &str = r#"mctpplan record KIND FIELD=VALUE..

Prints the hex of a Platform Descriptor Record. KIND is terminus-locator, numeric-sensor, state-
sensor, entity-association or other, and each FIELD a name that describe prints of such a record. Of
other the fields are type and bytes. A number is written in decimal digits without leading zeros.
One that isn't signed, and whose size doesn't hang on another field, may have hexadecimal digits
behind 0x. Bytes are written in hex; a state set as its number and its possible states, 33:06; an
entity as its type, its instance number and its container, 68/1/0. A state set or a contained entity
may come several times. What no word names is 0 or empty, but for a valid locator, the locator type
of an eid, and a resolution of 1.

Status 0: the hex.

  $ mctpplan record terminus-locator handle=1 tid=20 eid=37
  01000000010100000900000001140000010125
"#;

const OF_CODE: &str = r#"mctpplan code CODE

Prints what a code means, as C08 or n03, its cause, and what to do.

Status 0: the text.

  $ mctpplan code p02
  P02: exactly 4 bytes: no payload.
  Hint: a packet has at least one payload byte.
"#;

const OF_SCHEMA: &str = r#"mctpplan schema plan|certificate|events|board|answer

Prints the JSON schema (draft 2020-12) of a plan, a certificate, a list of events, a board, or what
is answered with --json. An editor that knows it completes the keys and marks most mistakes. Editors
of TOML take the schema of a board too.

Status 0: the schema.

  $ mctpplan schema plan > plan.schema.json
"#;

const OF_GUIDE: &str = r#"mctpplan guide [COMMAND]

Prints the commands, a line each; of one command its words, what it answers, its statuses and an
example.

Status 0: the text.

  $ mctpplan guide lint
  mctpplan lint PLAN [--json]

  Prints what is lawful in the plan and still looks wrong, a line each with a code, or clean. code
  tells what a code means. With --json the findings are one JSON value.

  Status 0: clean.
  Status 1: what looks wrong.

    $ mctpplan lint examples/riser/plan.json
    clean
"#;

const OF_VERSION: &str = r#"mctpplan version

Prints the version, the formats of plans, certificates and events that are read, and the kit that
proved this program. Where no kit is named, as in a program that bin/try built, the program is not
known to be proved.

Status 0: the lines.

  $ mctpplan version | sed -n 2p
  reads plans of formats 1 and 2, certificates of format 1, events of formats 1 to 3
"#;
