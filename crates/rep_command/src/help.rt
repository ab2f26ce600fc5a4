//! What `--help` says of a subcommand behind its options: the form of its input, its limits, an example, and what its status says.

/// Of the program.
pub(crate) const PROGRAM: &str = "\
Limits: a window of 1 to 256 seqnos, a log of 4 to 1024 cells, 1 to 8 tables, 4096 pages of 63 rows.
  An item has at most 16 reads and 16 writes, a value at most 62 bytes.
Status: 0 done; 1 refused, and the last line is 'fault NUMBER NAME'; 2 usage.
Each subcommand has its own help: replicad COMMAND --help";

/// Of `judge`.
pub(crate) const JUDGE: &str = "\
Input, one line each; the first is that of the parameters:
  params W N R R ..                                  the window, the cells, the rows of each table
  item LAST_SEEN [id S:T] [r KEY ..] w KEY=HEX ..    a write set; KEY- deletes, KEY is table/row
  window SIZE [id S:T]                               a change of the window's size
Output: 'seqno verdict', the verdict being commit, conflict M, stale, future or badkey.
Example: replicad judge < examples/first-order.txt
Status: 0 all are judged; 1 a line cannot be read, or memory or a stream failed; 2 usage.";

/// Of `format`.
pub(crate) const FORMAT: &str = "\
Limits: W 1 to 256, N 4 to 1024, 1 to 8 tables of at least one row, 4096 pages of 63 rows in all.
Example: replicad format node.disk --window 256 --cells 256 --rows 6300 \\
    --uuid 11111111-1111-4111-8111-111111111111
Status: 0 formatted; 1 nothing stands where the disk was to be, but where the line could not be written; 2 usage.";

/// Of `run`.
pub(crate) const RUN: &str = "\
Input, one line each; without a disk the first is 'params W N R R ..':
  deliver SEQNO item ..    the item with this seqno, as in the text that judge reads
  log, sync, check, flush P    steps of the log and of a checkpoint
  read KEY S, sum [S], state, limits    what the node has
  stop keep, stop drop, stop junk    without a disk alone
Output: what came of each line; a step that is refused is 'refused NUMBER NAME', and the script goes on.
Example: replicad run < examples/first-script.txt
Status: 0 each line was answered, whatever was refused; 1 a line cannot be read, or the disk cannot be opened; 2 usage.";

/// Of `state`.
pub(crate) const STATE: &str = "\
Output: a saved state as Galera's grastate.dat; its seqno is how many items are durable.
Example: replicad state node.disk --have node.have
Status: 0 printed; 1 refused, and the last line is 'fault NUMBER NAME'; 2 usage.";

/// Of `sum`.
pub(crate) const SUM: &str = "\
Output: 'sum GTID rows K sha256 HEX'. Nodes of one order have the same line at the same position.
Example: replicad sum node.disk --at 0
Status: 0 printed; 1 refused: 8 and 9 are a position that is too low or too high, 13 a damaged page; 2 usage.";

/// Of `donate`.
pub(crate) const DONATE: &str = "\
Output: 'donated SEQNO', the position that the joiner then has.
Example: replicad donate donor.disk --have joiner.have --out joiner.transfer
Status: 0 the transfer has its name; 1 refused: 20 is another cluster, 21 a joiner that is ahead; 2 usage.";

/// Of `join`.
pub(crate) const JOIN: &str = "\
Output: 'joined GTID', all of it durable.
Example: replicad join joiner.disk --from joiner.transfer
Status: 0 joined; 1 refused, and the node is as it was, or at the snapshot, or behind some of the items; 2 usage.";

/// Of `serve`.
pub(crate) const SERVE: &str = "\
Input, one line each: 'item LAST_SEEN [id S:T] [r KEY ..] w KEY=HEX ..' or 'window SIZE [id S:T]'.
Output: 'seqno verdict S:T' for each item, once all are durable, and then the state's line.
Limits: 16 reads and 16 writes an item, 62 bytes a value, 67108864 bytes of text.
Example: replicad serve node.disk --workers 8 < examples/first-batch.txt
Status: 0 all are durable; 1 refused: what has no line may be durable or not; 2 usage.";

/// Of `follow`.
pub(crate) const FOLLOW: &str = "\
Input, one line each; the first is that of the position behind which the order's items come:
  order GTID
  SEQNO item LAST_SEEN [id S:T] [r KEY ..] w KEY=HEX ..    the item with this seqno, whatever text it is
  SEQNO window SIZE [id S:T]
  read KEY .., sum [S], state, limits, counters, donate HAVE OUT    what the node has, at what is durable
Output: 'at GTID base B'; 'SEQNO verdict S:T' once an item is durable; the answer to each other line; last the state's line.
Limits: 4096 bytes a text, 16 keys a read; there is none for how long the order goes on.
Example: printf 'order 11111111-1111-4111-8111-111111111111:0\\n1 item 0 w 0/1=61\\n' | replicad follow node.disk
Status: 0 the input ended, and all is durable; 1 refused: what has a line is durable; 2 usage.";
