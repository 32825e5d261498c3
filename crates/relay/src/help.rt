//! What `--help` and `--version` print.

pub const VERSION: &str = "relay 0.1.0\n";

pub const HELP: &str = "\
relay translates framed byte streams.

usage: relay copy IN OUT [KEY=BYTES ..]
       relay pump IN OUT [KEY=BYTES ..]
       relay drill SEED COUNT IN OUT [KEY=BYTES ..]
       relay batch WORKERS IN OUT [KEY=BYTES ..] NAME ..
       relay serve LISTEN TARGET IN OUT COUNT [KEY=BYTES ..]

Reads frames from standard input, and writes their payloads to standard output as frames of another kind: `copy` on one
thread, and `pump` on two, of which one reads while the other writes. `drill` makes COUNT frames from the number SEED, relays
them into memory on two threads, and prints how many frames and bytes went in and out. `batch` relays the file of each NAME to
the file NAME.out, which is made anew, at most WORKERS of them at once, and prints a line for each: its name, its status and how
many frames were written. `serve` listens at LISTEN, accepts COUNT connections, one after the other, and relays what each sends to
a new connection to TARGET, on two threads; when one has ended it prints its number, its status and how many frames were written.

SEED     0 to 4294967295
COUNT    0 to 1000000, and of `serve` 1 to 1000000
WORKERS  1 to 16
NAME     the path of a file, 1 to 255 bytes that don't end in .out; at most 256 of them, all different
LISTEN, TARGET
         a TCP address, as 127.0.0.1:7000 or [::1]:7000, of 1 to 255 bytes

IN and OUT
  len4    the payload's length in 4 bytes, most significant first, and then the payload
  len2    the payload's length in 2 bytes, most significant first, and then the payload
  vlen    the payload's length in groups of 7 bits, least significant first, in 1 to 4 bytes, each but the last with its
          high bit set and no more than are needed, and then the payload
  line    the payload, which has no line feed, and then a line feed; the last line of an input may lack it

keys, in any order, each at most once
  max=BYTES       the greatest payload, 0 to 268435455; 65536 where it isn't given
  seg=BYTES       the size of a segment of the pipe, 64 to 65536; 4096 where it isn't given
  pause=BYTES     the pipe's pause threshold, 0, for never, to 16777216; 65536 where it isn't given
  resume=BYTES    the pipe's resume threshold, 1 to 16777216, and at most the pause threshold where that isn't 0;
                  where it isn't given, 32768, or the pause threshold where that is less and not 0

status, with a line on standard error where it isn't 0
  0  all of the input was relayed
  1  the words are no command; nothing is read or written
  2  a frame is too big or has a bad head, or OUT can't spell its payload; what came before it is written, and nothing after it
  3  the input ends within a frame; what came before that is written
  4  standard input, the file of a name or a connection can't be read; the whole frames that were read are written
  5  standard output, the output of a name or the connection to TARGET can't be written; what was written before stays, and may
     end within a frame
  6  there is no memory; nothing is read or written, but by `serve` for the connections before
  7  the input has more than 2^40 bytes; the whole frames of the first 2^40 are written
  8  the file of a name, or its output, can't be opened; nothing is relayed, and the outputs of the names before it are empty;
     or LISTEN can't be listened at, a connection can't be accepted, or TARGET doesn't accept one; `serve` ends then
";
