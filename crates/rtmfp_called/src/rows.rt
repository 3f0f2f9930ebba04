//! The rows: for each way in which the program may end, and can be made to on any machine, a call.

/// Rows: a title, and the line of a shell, in which `$0` is the program and `$1` a port of this
/// machine that is taken. Where a line names no other input, standard input is the one of all rows.
///
/// Two ends are lacking: no call has the random source fail, and one that finds no memory isn't the
/// same for each build. Where the first of three children fails, nobody reads what the two others
/// write, and whether and when they complain of it is left out.
pub(crate) const ROWS: &str = r#"
a packet: echo 0301000161 | "$0" show
no lines: "$0" replay </dev/null
no words: "$0"
a word of no command: "$0" play
a word that isn't text: "$0" show "$(printf '\377')"
standard error fails: "$0" play 2>/dev/full
a bad line of show: printf '0301000161\nzz\n' | "$0" show
a bad line of replay: printf 'end a 65536 4096 0123456789abcdefof a1.\nfly a\n' | "$0" replay
a forged datagram: "$0" replay
more than a million lines: yes '#' 2>/dev/null | "$0" replay
the source of show fails: "$0" show </
the source of replay fails: "$0" replay </
the sink fails at the end: echo 0301000161 | "$0" show >/dev/full
the sink fails before the end: yes 0301000161 2>/dev/null | "$0" show >/dev/full
the sink fails, and a line is bad: printf '0301000161\nzz\n' | "$0" show >/dev/full
a node: "$0" serve 127.0.0.1:0 $(printf %064d 0) node --turns 2
a place of another machine: "$0" serve 192.0.2.1:1935 $(printf %064d 0) node --turns 1
a place that is taken: "$0" serve 127.0.0.1:$1 $(printf %064d 0) node --turns 1
three nodes: t=$("$0" meet --port $((20000 + $$ % 4000 * 3)) --turns 1); s=$?; echo "$t" | sed -n '/ 0 self started /s/ near=.*//p'; exit $s
a child that fails: e=$("$0" meet --port $1 --turns 1 2>&1 >/dev/null); s=$?; echo "$e" | sed '/write fault/d' >&2; exit $s
a child that can't be started: ulimit -n 4; "$0" meet --port 40100 --turns 1
"#;
