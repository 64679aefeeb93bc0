//! Texts with near misses, and what they are refused as, worked out from the language's description: one a line. What
//! is wanted is `ok`, a name of the layer of names and types with line and column, or another layer with its own. A row
//! stands in the second line of its text, but for whole texts.

/// What stands before a row in the file: a constant, a module, and one with parameters.
pub const FILE_HEAD: &str = "\
const int LIMIT = 3; \
SC_MODULE(P) { \
    sc_in<int> i; sc_out<bool> o; sc_fifo_in<int> q; sc_signal<int> s; int v; void f() {} }; \
SC_MODULE(Q) { sc_in<bool> clk; const int size; int level; \
    Q(sc_module_name n, int a, int b) : sc_module(n), size(a), level(b) {} }; ";

/// What stands before a row in a module: a member of each sort.
pub const MODULE_HEAD: &str = "\
SC_MODULE(M) { int num, list[4]; bool flag, flags[2]; \
    const int fixed = 1; static const int shared = 2; const int table[2]; \
    sc_event ev; sc_signal<int> sig; sc_signal<bool> bit; sc_fifo<int> que; \
    sc_in<int> in; sc_in<bool> inb; sc_in_clk clk; sc_out<int> out; sc_out<bool> outb; \
    sc_inout<int> io; sc_inout<bool> iob; sc_fifo_in<int> from; sc_fifo_out<int> to; \
    P kid; Q big{\"b\", 1, 2}; \
    void act() {} int twice(int z) { return z + z; } bool ask() { return flag; } \
    void put(int z, bool y) {} ";

/// A word that denotes nothing, at each place where a name may stand.
pub static NAMES: &str = "
num = none; => UnknownName 2:7
none = num; => UnknownName 2:1
none[0] = 1; => UnknownName 2:1
list[none] = 1; => UnknownName 2:6
num = none[0]; => UnknownName 2:7
num = list[none]; => UnknownName 2:12
none += 1; => UnknownName 2:1
none++; => UnknownName 2:1
--none; => UnknownName 2:3
none(); => UnknownName 2:1
num = none(1); => UnknownName 2:7
put(none, true); => UnknownName 2:5
num = twice(none); => UnknownName 2:13
none.read(); => UnknownName 2:1
num = none.read(); => UnknownName 2:7
sig.write(none); => UnknownName 2:11
none.notify(1, SC_NS); => UnknownName 2:1
none.cancel(); => UnknownName 2:1
ev.notify(none, SC_NS); => UnknownName 2:11
ev.notify(sc_time(none, SC_NS)); => UnknownName 2:19
cout << none; => UnknownName 2:9
cout << num << \"a\" << none << endl; => UnknownName 2:23
if (none) ; => UnknownName 2:5
if (flag) ; else num = none; => UnknownName 2:24
while (none) ; => UnknownName 2:8
do ; while (none); => UnknownName 2:13
for (none = 0; ; ) ; => UnknownName 2:6
for (; none; ) ; => UnknownName 2:8
for (; ; none++) ; => UnknownName 2:10
int one = none; => UnknownName 2:11
num = flag ? 1 : none; => UnknownName 2:18
num = -(int) none; => UnknownName 2:14
num = int(none); => UnknownName 2:11
wait(none, SC_NS); => UnknownName 2:6
wait(1, SC_NS, none); => UnknownName 2:16
num = M; => UnknownName 2:7
num = std::none; => UnknownName 2:12
std::sc_core::none = 1; => UnknownName 2:15
read(); => UnknownName 2:1
";

/// A word after a dot that is no call of the thing before it.
pub static DOTS: &str = "
sig.foo(); => UnknownName 2:5
ev.read(); => UnknownName 2:4
num.read(); => UnknownName 2:5
list.read(); => UnknownName 2:6
fixed.read(); => UnknownName 2:7
kid.read(); => UnknownName 2:5
kid.f(); => UnknownName 2:5
act.read(); => UnknownName 2:5
LIMIT.read(); => UnknownName 2:7
P.read(); => UnknownName 2:3
num.notify(1, SC_NS); => UnknownName 2:5
sig.notify(1, SC_NS); => UnknownName 2:5
que.cancel(); => UnknownName 2:5
num = sig.foo; => parser Syntax 2:14
bit.value_changed_event(); => UnknownName 2:5
flag = inb.pos(); => UnknownName 2:12
flag = que.data_written_event(); => UnknownName 2:12
kid.i(1); => UnknownName 2:5
";

/// The calls of signals and their ports.
pub static SIGNALS: &str = "
num = sig.read(); sig.write(1); flag = sig.event(); => ok
flag = bit.read(); bit.write(true); flag = bit.event(); flag = bit.posedge(); flag = bit.negedge(); => ok
num = in.read(); flag = in.event(); => ok
flag = inb.read(); flag = inb.event(); flag = inb.posedge(); flag = inb.negedge(); => ok
flag = clk.read(); flag = clk.event(); flag = clk.posedge(); flag = clk.negedge(); => ok
num = out.read(); out.write(1); flag = out.event(); => ok
flag = outb.read(); outb.write(true); flag = outb.posedge(); flag = outb.negedge(); => ok
num = io.read(); io.write(1); flag = io.event(); => ok
flag = iob.read(); iob.write(true); flag = iob.posedge(); flag = iob.negedge(); => ok
sig.read(); sig.event(); bit.posedge(); => ok
if (bit.event() && bit.posedge() || !bit.negedge()) num = sig.read() + in.read(); => ok
flag = sig.posedge(); => UnknownName 2:12
flag = sig.negedge(); => UnknownName 2:12
flag = in.posedge(); => UnknownName 2:11
flag = out.posedge(); => UnknownName 2:12
flag = io.negedge(); => UnknownName 2:11
in.write(1); => UnknownName 2:4
inb.write(true); => UnknownName 2:5
clk.write(true); => UnknownName 2:5
sig.nb_read(num); => UnknownName 2:5
sig.num_free(); => UnknownName 2:5
num = sig.read(1); => WrongCount 2:11
sig.write(); => WrongCount 2:5
out.write(); => WrongCount 2:5
flag = sig.event(1); => WrongCount 2:12
flag = bit.posedge(1); => WrongCount 2:12
flag = clk.negedge(true); => WrongCount 2:12
num = sig.write(1); => WrongKind 2:11
num = 1 + out.write(1); => WrongKind 2:15
num = sig.write(); => WrongKind 2:11
sig.write(sig); out.write(in + sig.read()); io = in.read() + io.read(); => ok
int in; in.read(); => UnknownName 2:12
";

/// The calls of fifos and their ports.
pub static FIFOS: &str = "
num = que.read(); que.write(1); flag = que.nb_read(num); flag = que.nb_write(1); => ok
num = que.num_available(); num = que.num_free(); num = que.num_available() + que.num_free(); => ok
que.read(); que.nb_read(num); que.nb_write(1); que.num_free(); => ok
num = from.read(); flag = from.nb_read(num); num = from.num_available(); => ok
to.write(1); flag = to.nb_write(1); num = to.num_free(); => ok
int one = que.read(), two = from.read(); => ok
for (int one = que.read(); que.num_available() != 0; one = que.read()) ; => ok
sig = que.read(); list[0] = que.read(); => ok
from.write(1); => UnknownName 2:6
flag = from.nb_write(1); => UnknownName 2:13
num = from.num_free(); => UnknownName 2:12
num = to.read(); => UnknownName 2:10
flag = to.nb_read(num); => UnknownName 2:11
num = to.num_available(); => UnknownName 2:10
que.event(); => UnknownName 2:5
flag = from.posedge(); => UnknownName 2:13
num = que.read(1); => WrongCount 2:11
que.write(); => WrongCount 2:5
que.nb_read(); => WrongCount 2:5
que.nb_write(); => WrongCount 2:5
num = que.num_available(1); => WrongCount 2:11
num = to.num_free(1); => WrongCount 2:10
num = que.write(1); => WrongKind 2:11
num = 1 + que.write(1); => WrongKind 2:15
num = que.read() + 1; => EffectInside 2:11
num = -from.read(); => EffectInside 2:13
num = (que.read()); => EffectInside 2:12
num += que.read(); => EffectInside 2:12
cout << que.read(); => EffectInside 2:13
que.write(que.read()); => EffectInside 2:15
list[que.read()] = 1; => EffectInside 2:10
num = list[que.read()]; => EffectInside 2:16
num = twice(que.read()); => EffectInside 2:17
if (que.nb_read(num)) ; => EffectInside 2:9
while (!que.nb_write(1)) ; => EffectInside 2:13
flag = from.nb_read(num) && flag; => EffectInside 2:13
wait(que.read(), SC_NS); => EffectInside 2:10
int one = que.read() + 1; => EffectInside 2:15
";

/// What `nb_read` can put a value into.
pub static TARGETS: &str = "
que.nb_read(num); que.nb_read(flag); que.nb_read(list[num]); que.nb_read(flags[0]); => ok
int one; que.nb_read(one); => ok
flag = que.nb_read(list[none]); => UnknownName 2:25
que.nb_read(fixed); => WrongKind 2:13
que.nb_read(shared); => WrongKind 2:13
que.nb_read(LIMIT); => WrongKind 2:13
que.nb_read(sig); => WrongKind 2:13
que.nb_read(out); => WrongKind 2:13
que.nb_read(ev); => WrongKind 2:13
que.nb_read(list); => WrongKind 2:13
que.nb_read(table[0]); => WrongKind 2:13
que.nb_read(1); => WrongKind 2:13
que.nb_read(true); => WrongKind 2:13
que.nb_read((num)); => WrongKind 2:13
que.nb_read(-num); => WrongKind 2:13
que.nb_read((int) num); => WrongKind 2:13
que.nb_read(int(num)); => WrongKind 2:13
que.nb_read(num + 1); => WrongKind 2:13
que.nb_read(flag ? num : num); => WrongKind 2:13
que.nb_read(twice(1)); => WrongKind 2:13
que.nb_read(sig.read()); => WrongKind 2:13
que.nb_read(que.read()); => WrongKind 2:13
que.nb_read(none); => UnknownName 2:13
que.nb_read(none + 1); => UnknownName 2:13
que.nb_read(sig, 1); => parser Syntax 2:16
if (que.nb_read(none)) ; => EffectInside 2:9
que.nb_read((none)); => WrongKind 2:13
que.nb_read(que); => WrongKind 2:13
que.nb_read(in); => WrongKind 2:13
que.nb_read(act); => WrongKind 2:13
";

/// What may be assigned to, and how.
pub static WRITES: &str = "
num = 1; num += 1; num <<= 2; num++; --num; flag = true; list[0] = 1; list[1] %= 2; ++list[2]; flags[0] = true; => ok
sig = 1; bit = true; out = 1; outb = true; io = 1; iob = true; => ok
LIMIT = 1; => WrongKind 2:1
fixed = 1; => WrongKind 2:1
shared = 1; => WrongKind 2:1
fixed += 1; => WrongKind 2:1
fixed++; => WrongKind 2:1
--shared; => WrongKind 2:3
table[0] = 1; => WrongKind 2:1
table[0]++; => WrongKind 2:1
act = 1; => WrongKind 2:1
twice = 1; => WrongKind 2:1
ev = 1; => WrongKind 2:1
kid = 1; => WrongKind 2:1
P = 1; => WrongKind 2:1
que = 1; => WrongKind 2:1
from = 1; => WrongKind 2:1
to = 1; => WrongKind 2:1
in = 1; => WrongKind 2:1
inb = true; => WrongKind 2:1
clk = true; => WrongKind 2:1
in++; => WrongKind 2:1
flag += 1; => WrongKind 2:1
flag |= true; => WrongKind 2:1
flag++; => WrongKind 2:1
++flag; => WrongKind 2:3
flags[0] ^= true; => WrongKind 2:1
--flags[0]; => WrongKind 2:3
sig += 1; => WrongKind 2:1
sig++; => WrongKind 2:1
++bit; => WrongKind 2:3
out -= 1; => WrongKind 2:1
--io; => WrongKind 2:3
bool one; one++; => WrongKind 2:11
list = 1; => WrongKind 2:1
list++; => WrongKind 2:1
table = 1; => WrongKind 2:1
num[0] = 1; => WrongKind 2:1
sig[0] = 1; => WrongKind 2:1
que[0] = 1; => WrongKind 2:1
";

/// What has a value.
pub static VALUES: &str = "
num = LIMIT + fixed + shared + num + flag + list[0] + table[1] + sig + bit + in + inb + clk + out + io; => ok
num = (int) flag + int(bit) + bool(3) + unsigned(num) + ~num + !num; => ok
cout << num << list[0] << sig << \"a\" << sc_time_stamp() << endl; => ok
num = ev; => WrongKind 2:7
num = que; => WrongKind 2:7
num = from; => WrongKind 2:7
num = to; => WrongKind 2:7
num = kid; => WrongKind 2:7
num = act; => WrongKind 2:7
num = twice; => WrongKind 2:7
num = P; => WrongKind 2:7
num = list; => WrongKind 2:7
num = 1 + table; => WrongKind 2:11
num = num[0]; => WrongKind 2:7
num = sig[0]; => WrongKind 2:7
num = fixed[0]; => WrongKind 2:7
num = list[list]; => WrongKind 2:12
cout << ev; => WrongKind 2:9
if (kid) ; => WrongKind 2:5
wait(ev, SC_NS); => WrongKind 2:6
ev.notify(que, SC_NS); => WrongKind 2:11
sig.write(list); => WrongKind 2:11
num = LIMIT[0]; => WrongKind 2:7
num = P[0]; => WrongKind 2:7
";

/// Calls of functions, as statements, as whole right sides and inside expressions.
pub static CALLS: &str = "
act(); twice(1); ask(); put(num, flag); num = twice(num); flag = ask(); sig = twice(2); list[0] = twice(3); => ok
int one = twice(1), two = twice(one); => ok
for (num = twice(1); flag; num = twice(2)) act(); => ok
act(1); => WrongCount 2:1
twice(); => WrongCount 2:1
twice(1, 2); => WrongCount 2:1
put(1); => WrongCount 2:1
num = twice(); => WrongCount 2:7
num = act(); => WrongKind 2:7
num = act(1); => WrongKind 2:7
int one = act(); => WrongKind 2:11
num = 1 + act(); => WrongKind 2:11
cout << act(); => WrongKind 2:9
put(act(), true); => WrongKind 2:5
num(); => WrongKind 2:1
sig(1); => WrongKind 2:1
que(); => WrongKind 2:1
ev(); => WrongKind 2:1
kid(); => WrongKind 2:1
P(); => WrongKind 2:1
LIMIT(); => WrongKind 2:1
num = fixed(1); => WrongKind 2:7
num = 1 + twice(1); => EffectInside 2:11
num = twice(1) + 1; => EffectInside 2:7
num = (twice(1)); => EffectInside 2:8
num = !ask(); => EffectInside 2:8
num = (int) ask(); => EffectInside 2:13
num = flag ? twice(1) : 2; => EffectInside 2:14
num += twice(1); => EffectInside 2:8
num = twice(twice(1)); => EffectInside 2:13
twice(twice(1)); => EffectInside 2:7
list[twice(0)] = 1; => EffectInside 2:6
num = list[twice(0)]; => EffectInside 2:12
sig.write(twice(1)); => EffectInside 2:11
que.write(twice(1)); => EffectInside 2:11
int one = 1 + twice(1); => EffectInside 2:15
cout << twice(1); => EffectInside 2:9
if (ask()) ; => EffectInside 2:5
while (ask()) ; => EffectInside 2:8
do ; while (ask()); => EffectInside 2:13
for (; ask(); ) ; => EffectInside 2:8
wait(twice(1), SC_NS); => EffectInside 2:6
ev.notify(twice(1), SC_NS); => EffectInside 2:11
num = 1 + twice(); => WrongCount 2:11
num = twice(num, none); => WrongCount 2:7
flag = ask(none); => WrongCount 2:8
twice = twice(1); => WrongKind 2:1
";

/// Locals, and what they hide.
pub static LOCALS: &str = "
int num = 1; num++; => ok
int one = 1, two = one; two = one; => ok
int one; { int one; one = 1; { bool one = true; one = false; } one++; } one++; => ok
{ int one; } int one; => ok
int sig; sig += 1; => ok
int LIMIT; LIMIT++; => ok
int P; P = 1; int M = 2; M = P; => ok
int one; one(); => WrongKind 2:10
int act; act(); => WrongKind 2:10
{ int act; act = 1; } act(); => ok
int que; que.read(); => UnknownName 2:14
bool num; num++; => WrongKind 2:11
{ bool num; num = true; } num++; => ok
int one; int one; => DeclaredTwice 2:14
int one, one; => DeclaredTwice 2:10
int one; bool one = true; => DeclaredTwice 2:15
{ int one; { int two; } int one; } => DeclaredTwice 2:29
{ int one; } one = 1; => UnknownName 2:14
one = 1; int one; => UnknownName 2:1
int one = two, two = 1; => UnknownName 2:11
for (int one = 0; one < 3; one++) num = one; => ok
for (int one = 0, two = one; one < 3; one++) { num = two; } => ok
for (int one = 0; ; ) ; for (int one = 0; ; ) ; => ok
for (int one = 0; ; ) { int one = 1; one++; } => ok
for (int num = 0; num < 3; num++) ; num = 1; => ok
for (int one = 0, one = 1; ; ) ; => DeclaredTwice 2:19
for (int one = 0; ; ) ; one = 1; => UnknownName 2:25
for (int one = 0; two; ) int two; => UnknownName 2:19
while (flag) { int one; } one = 1; => UnknownName 2:27
do { int one; } while (one); => UnknownName 2:24
if (flag) { int one; } else one = 1; => UnknownName 2:29
";

/// `break`, `continue` and `return`.
pub static LOOPS: &str = "
while (true) break; do continue; while (flag); for (;;) { if (flag) break; else continue; } => ok
while (true) { { break; } while (true) ; continue; } => ok
return; => ok
if (flag) return; => ok
break; => WrongKind 2:1
continue; => WrongKind 2:1
if (flag) break; => WrongKind 2:11
{ continue; } => WrongKind 2:3
while (true) ; break; => WrongKind 2:16
for (;;) break; continue; => WrongKind 2:17
do ; while (true); break; => WrongKind 2:20
";

/// What a thread may wait for.
pub static WAITS: &str = "
wait(); wait(1, SC_NS); wait(SC_ZERO_TIME); wait(sc_time(num, SC_US)); wait(num + sig, SC_PS); => ok
wait(ev); wait(ev | ev); wait(1, SC_NS, ev | bit.posedge_event()); wait(SC_ZERO_TIME, ev); => ok
wait(sig.value_changed_event() | sig.default_event()); wait(bit.posedge_event() | bit.negedge_event()); => ok
wait(in.value_changed_event() | in.default_event() | inb.posedge_event() | inb.negedge_event()); => ok
wait(clk.posedge_event() | clk.default_event() | clk.value_changed_event() | clk.negedge_event()); => ok
wait(out.value_changed_event() | out.default_event() | outb.posedge_event() | outb.negedge_event()); => ok
wait(io.value_changed_event() | io.default_event() | iob.posedge_event() | iob.negedge_event()); => ok
wait(que.data_written_event() | que.data_read_event()); => ok
wait(from.data_written_event() | to.data_read_event()); => ok
ev.notify(1, SC_NS); ev.notify(SC_ZERO_TIME); ev.notify(sc_time(num, SC_NS)); ev.cancel(); sc_stop(); => ok
wait(none); => UnknownName 2:6
wait(none.pos()); => UnknownName 2:6
wait(ev | none); => UnknownName 2:11
wait(sig); => WrongKind 2:6
wait(bit); => WrongKind 2:6
wait(in); => WrongKind 2:6
wait(inb); => WrongKind 2:6
wait(clk); => WrongKind 2:6
wait(out); => WrongKind 2:6
wait(io); => WrongKind 2:6
wait(que); => WrongKind 2:6
wait(from); => WrongKind 2:6
wait(to); => WrongKind 2:6
wait(num); => WrongKind 2:6
wait(list); => WrongKind 2:6
wait(fixed); => WrongKind 2:6
wait(LIMIT); => WrongKind 2:6
wait(kid); => WrongKind 2:6
wait(act); => WrongKind 2:6
wait(P); => WrongKind 2:6
int one; wait(one); => WrongKind 2:15
wait(ev | sig); => WrongKind 2:11
wait(1, SC_NS, bit); => WrongKind 2:16
wait(inb.pos()); => WrongKind 2:10
wait(inb.neg()); => WrongKind 2:10
wait(in.value_changed()); => WrongKind 2:9
wait(clk.pos()); => WrongKind 2:10
wait(outb.pos()); => WrongKind 2:11
wait(out.value_changed()); => WrongKind 2:10
wait(iob.neg()); => WrongKind 2:10
wait(from.data_written()); => WrongKind 2:11
wait(to.data_read()); => WrongKind 2:9
wait(1, SC_NS, inb.pos()); => WrongKind 2:20
wait(sig.read()); => WrongKind 2:10
wait(sig.write()); => WrongKind 2:10
wait(bit.event()); => WrongKind 2:10
wait(bit.posedge()); => WrongKind 2:10
wait(que.read()); => WrongKind 2:10
wait(que.nb_read()); => WrongKind 2:10
wait(from.num_available()); => WrongKind 2:11
wait(to.num_free()); => WrongKind 2:9
wait(sig.value_changed()); => UnknownName 2:10
wait(bit.pos()); => UnknownName 2:10
wait(in.pos()); => UnknownName 2:9
wait(in.write()); => UnknownName 2:9
wait(sig.posedge_event()); => UnknownName 2:10
wait(sig.posedge()); => UnknownName 2:10
wait(in.negedge_event()); => UnknownName 2:9
wait(out.posedge_event()); => UnknownName 2:10
wait(que.data_written()); => UnknownName 2:10
wait(que.default_event()); => UnknownName 2:10
wait(que.value_changed_event()); => UnknownName 2:10
wait(from.data_read_event()); => UnknownName 2:11
wait(from.data_read()); => UnknownName 2:11
wait(from.write()); => UnknownName 2:11
wait(to.data_written_event()); => UnknownName 2:9
wait(to.data_written()); => UnknownName 2:9
wait(sig.data_written_event()); => UnknownName 2:10
wait(ev.default_event()); => UnknownName 2:9
wait(num.posedge_event()); => UnknownName 2:10
wait(kid.default_event()); => UnknownName 2:10
wait(sig.foo()); => UnknownName 2:10
next_trigger(); => WrongKind 2:1
next_trigger(ev); => WrongKind 2:1
next_trigger(none); => WrongKind 2:1
wait(std::none); => UnknownName 2:11
wait(num, SC_NS, std::ev | que.data_read_event()); => ok
wait(num | sig); => WrongKind 2:6
";

/// What a method may do.
pub static METHODS: &str = "
next_trigger(); next_trigger(1, SC_NS); next_trigger(ev); next_trigger(num, SC_NS, ev | bit.negedge_event()); => ok
if (flag) { next_trigger(que.data_written_event()); return; } next_trigger(SC_ZERO_TIME); => ok
sig.read(); sig.write(1); que.nb_write(1); que.nb_read(num); num = que.num_available(); act(); => ok
wait(); => WaitInMethod 2:1
wait(1, SC_NS); => WaitInMethod 2:1
wait(none); => WaitInMethod 2:1
while (true) { if (flag) wait(ev); } => WaitInMethod 2:26
for (; ; wait()) ; => WaitInMethod 2:10
que.read(); => WaitInMethod 2:5
num = que.read(); => WaitInMethod 2:11
int one = from.read(); => WaitInMethod 2:16
que.write(1); => WaitInMethod 2:5
to.write(1); => WaitInMethod 2:4
num = 1 + que.read(); => WaitInMethod 2:15
que.write(); => WaitInMethod 2:5
num = que.read(1); => WaitInMethod 2:11
num = que.write(1); => WrongKind 2:11
num = none; wait(); => UnknownName 2:7
wait(); num = none; => WaitInMethod 2:1
next_trigger(sig); => WrongKind 2:14
next_trigger(que); => WrongKind 2:14
next_trigger(inb.pos()); => WrongKind 2:18
next_trigger(from.data_written()); => WrongKind 2:19
next_trigger(que.read()); => WrongKind 2:18
next_trigger(1, SC_NS, to.data_read()); => WrongKind 2:27
next_trigger(bit.pos()); => UnknownName 2:18
next_trigger(none); => UnknownName 2:14
next_trigger(twice(1), SC_NS); => EffectInside 2:14
next_trigger(que.read(), SC_NS); => WaitInMethod 2:18
sc_core::wait(); => WaitInMethod 2:10
from.write(1); => UnknownName 2:6
";

/// What a function may do that is no process.
pub static LOOSE: &str = "
num = 1; act(); sig.write(1); que.nb_write(1); flag = from.nb_read(num); ev.notify(1, SC_NS); sc_stop(); => ok
wait(); => WaitInFunction 2:1
wait(1, SC_NS); => WaitInFunction 2:1
wait(none); => WaitInFunction 2:1
que.read(); => WaitInFunction 2:5
num = from.read(); => WaitInFunction 2:12
to.write(1); => WaitInFunction 2:4
num = 1 + que.read(); => WaitInFunction 2:15
que.write(); => WaitInFunction 2:5
next_trigger(); => WrongKind 2:1
next_trigger(1, SC_NS); => WrongKind 2:1
";

/// Functions that give a value.
pub static RESULTS: &str = "
return 1; => ok
if (flag) return num; => ok
return sig + que.num_free(); => ok
return; => WrongKind 2:1
if (flag) return 1; else return; => WrongKind 2:26
return none; => UnknownName 2:8
return act(); => WrongKind 2:8
return list; => WrongKind 2:8
return twice(1); => EffectInside 2:8
return que.read(); => WaitInFunction 2:12
wait(); return 1; => WaitInFunction 2:1
";

/// Each way to write an event, on each thing, where the static events of a process are given.
pub static SENSITIVE: &str = "
ev << ev => ok
sig << bit << in << inb << clk << out << outb << io << iob => ok
sig.value_changed_event() << sig.default_event() << bit.posedge_event() << bit.negedge_event() => ok
in.value_changed_event() << in.default_event() << in.value_changed() => ok
inb.posedge_event() << inb.negedge_event() << inb.pos() << inb.neg() << inb.value_changed() => ok
clk.posedge_event() << clk.negedge_event() << clk.pos() << clk.neg() => ok
out.value_changed_event() << out.default_event() << out.value_changed() << outb.pos() << outb.neg() << outb.posedge_event() => ok
io.value_changed_event() << io.default_event() << io.value_changed() << iob.pos() << iob.neg() << iob.negedge_event() => ok
que.data_written_event() << que.data_read_event() => ok
from.data_written_event() << from.data_written() << to.data_read_event() << to.data_read() => ok
none => UnknownName 2:1
none.pos() => UnknownName 2:1
ev << none << num => UnknownName 2:7
que => WrongKind 2:1
from => WrongKind 2:1
to => WrongKind 2:1
num => WrongKind 2:1
flag => WrongKind 2:1
list => WrongKind 2:1
fixed => WrongKind 2:1
LIMIT => WrongKind 2:1
kid => WrongKind 2:1
act => WrongKind 2:1
run => WrongKind 2:1
P => WrongKind 2:1
ev << que => WrongKind 2:7
sig.read() => WrongKind 2:5
sig.write() => WrongKind 2:5
sig.event() => WrongKind 2:5
bit.posedge() => WrongKind 2:5
in.read() => WrongKind 2:4
out.write() => WrongKind 2:5
que.read() => WrongKind 2:5
que.write() => WrongKind 2:5
que.nb_read() => WrongKind 2:5
from.num_available() => WrongKind 2:6
to.nb_write() => WrongKind 2:4
sig.value_changed() => UnknownName 2:5
bit.pos() => UnknownName 2:5
bit.neg() => UnknownName 2:5
sig.posedge_event() => UnknownName 2:5
sig.negedge() => UnknownName 2:5
in.pos() => UnknownName 2:4
in.neg() => UnknownName 2:4
in.posedge_event() => UnknownName 2:4
in.write() => UnknownName 2:4
out.pos() => UnknownName 2:5
io.negedge_event() => UnknownName 2:4
que.data_written() => UnknownName 2:5
que.data_read() => UnknownName 2:5
que.default_event() => UnknownName 2:5
que.value_changed_event() => UnknownName 2:5
from.data_read_event() => UnknownName 2:6
from.data_read() => UnknownName 2:6
from.default_event() => UnknownName 2:6
from.num_free() => UnknownName 2:6
to.data_written_event() => UnknownName 2:4
to.data_written() => UnknownName 2:4
to.value_changed() => UnknownName 2:4
to.read() => UnknownName 2:4
ev.default_event() => UnknownName 2:4
num.read() => UnknownName 2:5
act.default_event() => UnknownName 2:5
kid.s() => UnknownName 2:5
ev << sc_core::none => UnknownName 2:16
";

/// Processes, start values and bindings in the body of a constructor.
pub static SETUPS: &str = "
SC_THREAD(run); sensitive << ev; dont_initialize(); SC_METHOD(act); sensitive << sig << bit; => ok
SC_THREAD(none); => UnknownName 2:11
SC_THREAD(twice); => WrongKind 2:11
SC_THREAD(ask); => WrongKind 2:11
SC_METHOD(put); => WrongKind 2:11
SC_THREAD(num); => WrongKind 2:11
SC_METHOD(sig); => WrongKind 2:11
SC_THREAD(ev); => WrongKind 2:11
SC_METHOD(kid); => WrongKind 2:11
SC_THREAD(P); => WrongKind 2:11
SC_THREAD(run); SC_THREAD(run); => DeclaredTwice 2:27
SC_THREAD(run); SC_METHOD(run); => DeclaredTwice 2:27
SC_METHOD(run); SC_THREAD(run); => DeclaredTwice 2:27
SC_METHOD(run); SC_METHOD(act); SC_METHOD(run); => DeclaredTwice 2:43
sensitive << ev; SC_THREAD(run); => WrongKind 2:1
dont_initialize(); SC_THREAD(run); => WrongKind 2:1
sensitive << none; => WrongKind 2:1
SC_THREAD(none); sensitive << ev; => UnknownName 2:11
SC_THREAD(twice); dont_initialize(); => WrongKind 2:11
num = 1; flag = true; num = LIMIT + fixed * 2; num = shared; => ok
none = 1; => UnknownName 2:1
list = 1; => WrongKind 2:1
fixed = 1; => WrongKind 2:1
shared = 1; => WrongKind 2:1
sig = 1; => WrongKind 2:1
out = 1; => WrongKind 2:1
in = 1; => WrongKind 2:1
que = 1; => WrongKind 2:1
ev = 1; => WrongKind 2:1
kid = 1; => WrongKind 2:1
act = 1; => WrongKind 2:1
LIMIT = 1; => WrongKind 2:1
P = 1; => WrongKind 2:1
num = none; => UnknownName 2:7
num = num; => NotConstant 2:7
num = sig; => NotConstant 2:7
num = sig.read(); => NotConstant 2:7
num = list[0]; => NotConstant 2:7
num = que.read(); => NotConstant 2:7
num = twice(1); => NotConstant 2:7
num = 1 + num; => NotConstant 2:7
num = 1 + twice(1); => NotConstant 2:7
num = act(); => WrongKind 2:7
num = twice(); => WrongCount 2:7
num = list; => WrongKind 2:7
num = ev; => WrongKind 2:7
kid.i(sig); kid.o.bind(bit); kid.q(que); big.clk(clk); => ok
kid.i(in); kid.o(outb); kid.q(from); => ok
kid.i(bit); kid.q(sig); big.clk(num); kid.i(kid); => ok
kid.v(sig); => NotAPort 2:5
kid.s(sig); => NotAPort 2:5
kid.f(sig); => NotAPort 2:5
kid.none(sig); => NotAPort 2:5
kid.none.bind(sig); => NotAPort 2:5
kid.clk(bit); => NotAPort 2:5
big.i(sig); => NotAPort 2:5
big.size(sig); => NotAPort 2:5
kid.none(none); => NotAPort 2:5
none.i(sig); => UnknownName 2:1
none.none(none); => UnknownName 2:1
kid.i(none); => UnknownName 2:7
kid.i.bind(none); => UnknownName 2:12
kid.bind(sig); => NotAPort 2:5
kid.bind.bind(sig); => NotAPort 2:5
SC_THREAD(act); sensitive << clk.pos() << que.data_written_event(); SC_THREAD(run); dont_initialize(); => ok
";

/// The initialisers of a constructor without parameters.
pub static INITS: &str = "
num(1), flag(true), fixed(LIMIT), num(2) => ok
sig(\"s\"), que(\"q\", 4), in(\"i\"), clk(\"c\"), out(\"o\"), io(\"x\"), from(\"f\"), to(\"t\"), ev(\"e\"), kid(\"k\"), big(\"b\", 1, 2) => ok
sig(), que(), que(4), que(\"q\"), in(), from(), ev() => ok
sc_module(\"m\") => ok
num(fixed + shared), que(fixed), big(\"b\", LIMIT, fixed) => ok
none(1) => UnknownName 2:1
list(1) => WrongKind 2:1
shared(1) => WrongKind 2:1
num(1), shared(2) => WrongKind 2:9
table(1) => WrongKind 2:1
act(1) => WrongKind 2:1
act() => WrongKind 2:1
run() => WrongKind 2:1
LIMIT(1) => WrongKind 2:1
P(\"p\") => WrongKind 2:1
num() => WrongCount 2:1
num(1, 2) => WrongCount 2:1
fixed(1, 2) => WrongCount 2:1
sig(\"a\", \"b\") => WrongCount 2:1
in(\"a\", \"b\") => WrongCount 2:1
ev(\"a\", \"b\") => WrongCount 2:1
que(\"q\", 4, 4) => WrongCount 2:1
que(4, 4) => WrongCount 2:1
from(\"f\", 4) => WrongCount 2:1
kid() => WrongCount 2:1
kid(\"k\", 1) => WrongCount 2:1
kid(\"k\", \"l\") => WrongCount 2:1
big(\"b\") => WrongCount 2:1
big(\"b\", 1) => WrongCount 2:1
big(\"b\", 1, 2, 3) => WrongCount 2:1
big() => WrongCount 2:1
sc_module() => WrongCount 2:1
sc_module(\"a\", \"b\") => WrongCount 2:1
num(none) => UnknownName 2:5
num(num) => NotConstant 2:5
num(sig) => NotConstant 2:5
num(list[0]) => NotConstant 2:5
num(1 + num) => NotConstant 2:5
num(twice(1)) => EffectInside 2:5
num(que) => WrongKind 2:5
que(num) => NotConstant 2:5
que(\"q\", sig) => NotConstant 2:10
big(\"b\", 1, num) => NotConstant 2:13
big(\"b\", none, 1) => UnknownName 2:10
sig(\"s\"), num(none), none(1) => UnknownName 2:15
";

/// The initialisers of a constructor with a name, an int `size` and a bool `wide`.
pub static PARAMS: &str = "
sc_module(name), num(size), flag(wide), fixed(size * 2 + LIMIT) => ok
sc_module(\"m\"), que(\"q\", size), big(\"b\", size, wide) => ok
num(name) => WrongKind 2:5
num(name + 1) => WrongKind 2:5
que(name) => WrongKind 2:5
big(\"b\", name, 1) => WrongKind 2:10
size(1) => UnknownName 2:1
name(\"n\") => UnknownName 2:1
sc_module(none) => UnknownName 2:11
sc_module(name, name) => WrongCount 2:1
sc_module(name + 1) => WrongKind 2:11
";

/// Declarations of members, and what stands in them.
pub static MEMBERS: &str = "
public: int a, b[2], c = 1; const int d; const int e2[3]; bool f = true; const int g = 1; static const int h = 2; => ok
sc_in<int> a, b; sc_out<bool> c; sc_in_clk d; sc_fifo_in<int> e1; sc_event e2, e3; sc_signal<int> s{\"s\"}, s2; => ok
sc_fifo<int> a, b{4}, c{\"c\"}, d{\"d\", LIMIT}; P p{\"p\"}; Q q{\"q\", 1, LIMIT}; SC_HAS_PROCESS(M); => ok
int a[LIMIT + 1], b = LIMIT; const int c = LIMIT * 2; sc_fifo<int> f{c}; int d = c; => ok
int a[c], b = c; const int c = 2; => ok
const int c = d; const int d = 1; static const int e = c; => ok
int M; void f() { M = 1; } => ok
int LIMIT; void f() { LIMIT = 1; } => ok
void f() { v = 1; g(); w[0] = v; e.notify(1, SC_NS); } int v, w[2]; void g() {} sc_event e; => ok
int v; int v; => DeclaredTwice 2:12
int v, v; => DeclaredTwice 2:8
int v; const int v = 1; => DeclaredTwice 2:18
int v; bool v[2]; => DeclaredTwice 2:13
int v; void v() {} => DeclaredTwice 2:13
void f() {} void f() {} => DeclaredTwice 2:18
void f() {} int f(int z) { return z; } => DeclaredTwice 2:17
sc_event e, e; => DeclaredTwice 2:13
sc_in<int> p; sc_out<int> p; => DeclaredTwice 2:27
sc_in_clk c; sc_in_clk c; => DeclaredTwice 2:24
sc_signal<int> s; sc_fifo<int> s; => DeclaredTwice 2:32
P p; P p; => DeclaredTwice 2:8
P p, p; => DeclaredTwice 2:6
int a[v]; int v; => NotConstant 2:7
int a[none]; => UnknownName 2:7
int a[1 + none]; => NotConstant 2:7
int a[s]; sc_signal<int> s; => NotConstant 2:7
int a[b[0]]; int b[2]; => NotConstant 2:7
int a[b]; int b[2]; => WrongKind 2:7
int a = v; int v; => NotConstant 2:9
int a = none; => UnknownName 2:9
int a = 1 + v; int v; => NotConstant 2:9
int a = f; void f() {} => WrongKind 2:9
const int c = v; int v; => NotConstant 2:15
const int c = none; => UnknownName 2:15
static const int c = 1 + s.read(); sc_signal<int> s; => NotConstant 2:22
sc_fifo<int> f{v}; int v; => NotConstant 2:16
sc_fifo<int> f{none}; => UnknownName 2:16
sc_fifo<int> f{4, 4}; => WrongCount 2:14
sc_fifo<int> f{\"f\", \"g\"}; => WrongCount 2:14
sc_fifo<int> f{\"f\", 4, 4}; => WrongCount 2:14
sc_signal<int> s{\"s\", \"t\"}; => WrongCount 2:16
X x; => UnknownName 2:1
X x{\"x\", none}; => UnknownName 2:1
LIMIT x; => WrongKind 2:1
v x; int v; => WrongKind 2:1
M m; => UnknownName 2:1
P p{\"p\", 1}; => WrongCount 2:3
P p{\"p\", \"q\"}; => WrongCount 2:3
Q q{\"q\"}; => WrongCount 2:3
Q q{\"q\", 1}; => WrongCount 2:3
Q q{\"q\", 1, 2, 3}; => WrongCount 2:3
Q q{\"q\", 1, v}; int v; => NotConstant 2:13
Q q{\"q\", none, 1}; => UnknownName 2:10
Q q; SC_CTOR(M) : q(\"q\", 1, 2) {} => ok
Q q1{\"q\", 1, 2}, q2; SC_CTOR(M) : q2(\"q\", 1, 2) {} => ok
const int c = c; int a[c]; => ok
int notify; void cancel() { notify = 1; read(); } void bind() { cancel(); } void read() {} => ok
sc_fifo<int> read; void write() { int v = 1; read.nb_read(v); read.nb_write(v); } => ok
SC_CTOR(M) : q(\"q\", 1, 2) {} Q q; => ok
Q q; SC_CTOR(M) : q(\"q\") {} => WrongCount 2:19
int a[(v)]; int v; => NotConstant 2:7
int a[(none)]; => NotConstant 2:7
int a[-none]; => NotConstant 2:7
int a[int(v)]; int v; => NotConstant 2:7
int a[(int) v]; int v; => NotConstant 2:7
int a[v ? 1 : 2]; int v; => NotConstant 2:7
int a[true ? v : 2]; int v; => NotConstant 2:7
int a[true ? -1 + (int) LIMIT : int(c) << 2]; const int c = 1; => ok
bool a = !c && LIMIT > 1 || ~c == 2; const bool c = false; => ok
";

/// Functions, their parameters and their calls.
pub static FUNCTIONS: &str = "
int f(int a, bool b) { a = 1; a++; b = true; int c = a; return c; } void g() { f(1, true); } => ok
void f(int z) { int z; z = 1; } => ok
void f(int f) { f = 1; } => ok
bool v; void f(int v) { v++; } => ok
int v; void f(bool v) { v++; } => WrongKind 2:25
void f(int z, int z) {} => DeclaredTwice 2:19
void f(int z, bool y, bool z) {} => DeclaredTwice 2:28
void f() { z = 1; } void g(int z) {} => UnknownName 2:12
void f() { int z; } void g() { z = 1; } => UnknownName 2:32
sc_fifo<int> q; void f(int z) { q.nb_read(z); } => ok
int f() {} => ok
bool f() { if (true) return true; } => ok
void M() {} => ok
void f() { f(); } => RecursiveCall 2:12
void f() { g(); } void g() { f(); } => RecursiveCall 2:12
void f() { g(); } void g() { h(); } void h() { f(); } => RecursiveCall 2:12
void f() { g(); } void g() { h(); } void h() { i(); } void i() {} => ok
void f() { g(); g(); h(); } void g() { h(); } void h() {} => ok
void f() { g(); } void g() { g(); } => RecursiveCall 2:30
void f() { g(); h(); } void g() {} void h() { f(); } => RecursiveCall 2:17
void f() { g(); } void g() { h(); } void h() { i(); } void i() { g(); } => RecursiveCall 2:30
int f(int z) { int y = f(z); return y; } => RecursiveCall 2:24
int f(int z) { return f(z); } => RecursiveCall 2:23
void f() { f(1); } => RecursiveCall 2:12
void f() { int y = f(); } => WrongKind 2:20
void f() { int f; f(); } => WrongKind 2:19
void f() { for (; ; g()) ; } void g() { while (true) { if (true) f(); } } => RecursiveCall 2:21
void f() { wait(); } void g() { f(); } SC_CTOR(M) { SC_THREAD(f); } => WaitInFunction 2:12
void f() { wait(); } void g() { f(); } SC_CTOR(M) { SC_THREAD(g); } => WaitInFunction 2:12
void f() { wait(); } void g() { f(); } SC_CTOR(M) { SC_METHOD(f); } => WaitInMethod 2:12
void f() { wait(); } void g() {} SC_CTOR(M) { SC_THREAD(g); } => WaitInFunction 2:12
sc_fifo<int> q; void f() { q.write(1); } void g() { f(); } SC_CTOR(M) { SC_THREAD(f); } => WaitInFunction 2:30
sc_fifo<int> q; void f() { q.nb_write(1); } void g() { f(); } SC_CTOR(M) { SC_THREAD(g); } => ok
void f() { wait(); } void g() { wait(1, SC_NS); } SC_CTOR(M) { SC_THREAD(f); SC_THREAD(g); } => ok
void f() { next_trigger(); } void g() { f(); } SC_CTOR(M) { SC_METHOD(f); SC_METHOD(g); } => ok
void f() { next_trigger(); } void g() { f(); } SC_CTOR(M) { SC_METHOD(g); } => WrongKind 2:12
void f() { next_trigger(); } SC_CTOR(M) { SC_THREAD(f); } => WrongKind 2:12
void f() { wait(); f(); } SC_CTOR(M) { SC_THREAD(f); } => WaitInFunction 2:12
void f() { f(); wait(); } SC_CTOR(M) { SC_THREAD(f); } => RecursiveCall 2:12
void f() { } void g() { int f; f = 1; wait(); } SC_CTOR(M) { SC_THREAD(f); SC_THREAD(g); } => ok
void f(bool z) { z++; } => WrongKind 2:18
void f(bool z) { z = !z; if (z) z = false; } => ok
void f(int z) { z(); } => WrongKind 2:17
void f(int z) { z.read(); } => UnknownName 2:19
void f(int f) { f(1); } => WrongKind 2:17
void f() { M(); } => UnknownName 2:12
void f() { wait(); } void g() { f(); } SC_CTOR(M) { SC_METHOD(g); } => WaitInFunction 2:12
";

/// Constructors: their names, their parameters and what those hide.
pub static CONSTRUCTORS: &str = "
SC_CTOR(M) {} => ok
SC_CTOR(M) { SC_THREAD(f); } void f() { wait(); } => ok
M(sc_module_name n) : sc_module(n) {} => ok
int v; M(sc_module_name n, int v) : sc_module(n), v(v) {} => ok
M(sc_module_name n, int a, bool b) : sc_module(n), v(a), w(b) { v = a + 1; } int v; bool w; => ok
SC_CTOR(N) {} => WrongKind 2:9
SC_CTOR(P) {} => WrongKind 2:9
N(sc_module_name n) : sc_module(n) {} => WrongKind 2:1
SC_CTOR(M) {} SC_CTOR(M) {} => DeclaredTwice 2:23
SC_CTOR(M) {} M(sc_module_name n) : sc_module(n) {} => DeclaredTwice 2:15
SC_CTOR(M) {} SC_CTOR(N) {} => DeclaredTwice 2:23
M(sc_module_name n, int n) : sc_module(n) {} => DeclaredTwice 2:25
M(sc_module_name n, int a, int a) : sc_module(n) {} => DeclaredTwice 2:32
int v; M(sc_module_name n, int v) : sc_module(n) { v = 1; } => WrongKind 2:52
int v; M(sc_module_name v) : sc_module(v), v(v) {} => WrongKind 2:46
int v; M(sc_module_name n) : sc_module(n) { v = n; } => WrongKind 2:49
void f() {} M(sc_module_name n, int f) : sc_module(n) { SC_THREAD(f); } => ok
void f() {} M(sc_module_name f) { SC_METHOD(f); SC_THREAD(f); } => DeclaredTwice 2:59
M(sc_module_name n, int f) : sc_module(n) { SC_THREAD(f); } => UnknownName 2:55
int v; M(sc_module_name n, int f) : sc_module(n) { SC_METHOD(v); } => WrongKind 2:62
void f() {} sc_event e; M(sc_module_name n, int e) : sc_module(n) { SC_THREAD(f); sensitive << e; } => WrongKind 2:96
int a[z]; M(sc_module_name n, int z) : sc_module(n) {} => UnknownName 2:7
M(sc_module_name n, int z) : sc_module(n) {} void f() { z = 1; } => UnknownName 2:57
M(sc_module_name n) : sc_module(n) {} void f() { int z = n; } => UnknownName 2:58
P p; sc_signal<int> s; SC_CTOR(M) { p.i(s); } => ok
SC_CTOR(M) : v(1), p(\"p\") { p.i(s); SC_THREAD(f); } P p; sc_signal<int> s; int v; void f() {} => ok
void f() {} SC_CTOR(M) { SC_THREAD(f); } void g() { wait(); } => WaitInFunction 2:53
M(sc_module_name n, int P) : sc_module(n) {} P p; => ok
P p; sc_signal<int> s; M(sc_module_name n, int s) : sc_module(n) { p.i(s); } => ok
Q q; SC_CTOR(M) {} => WrongCount 2:3
Q q, r; SC_CTOR(M) : r(\"r\", 1, 2) {} => WrongCount 2:3
M(sc_module_name M) : sc_module(M) {} => ok
M(sc_module_name n, int LIMIT) : sc_module(n), v(LIMIT) {} int v; => ok
int std::v; SC_CTOR(std::M) : sc_core::v(1) { std::v = 2; } => ok
void f() {} M(sc_module_name n, int e) : sc_module(n) { SC_THREAD(f); sensitive << e.pos(); } => UnknownName 2:86
";

/// The least place is told, in whatever order the breaches are met, and at one place the least number.
pub static ORDER: &str = "
void f() { wait(); } int v; int v; => WaitInFunction 2:12
void f() { g(); } void g() { f(); } int v; int v; => RecursiveCall 2:12
void f() { v = none; } int v, v; => UnknownName 2:16
void f() { next_trigger(); } SC_CTOR(M) { SC_THREAD(none); } => WrongKind 2:12
SC_CTOR(M) { SC_THREAD(none); } void f() { wait(); } => UnknownName 2:24
SC_CTOR(M) : v(none) {} int v, v; => UnknownName 2:16
int a[v]; int v, v; => NotConstant 2:7
int v, v; int a[none]; => DeclaredTwice 2:8
void f() { if (none) wait(); } SC_CTOR(M) { SC_METHOD(f); } => UnknownName 2:16
void f() { g(); wait(); } void g() { f(); } SC_CTOR(M) { SC_METHOD(f); } => RecursiveCall 2:12
X x; SC_CTOR(M) { x.i(none); } => UnknownName 2:1
Q q; int q; => WrongCount 2:3
void f() { int z = 1 + f(1); } => WrongKind 2:24
int f(int z) { int y = 1 + f(); return y; } => RecursiveCall 2:28
";

/// Declarations and bindings of `sc_main`.
pub static MAINS: &str = "
sc_signal<int> s; sc_signal<bool> t(\"t\"); sc_fifo<int> f(4); sc_fifo<int> g(\"g\", LIMIT); sc_fifo<bool> h(\"h\"); => ok
sc_clock c(\"c\", 10, SC_NS); sc_clock d(\"d\", sc_time(LIMIT, SC_US)); sc_clock e(\"e\", SC_ZERO_TIME); => ok
const int n = LIMIT + 1; sc_fifo<int> f(n); sc_clock c(\"c\", n, SC_NS); Q q(\"q\", n, -1); sc_start(n, SC_NS); => ok
P p(\"p\"); sc_signal<int> s; sc_signal<bool> t; sc_fifo<int> f; p.i(s); p.o.bind(t); p.q(f); sc_start(); return 0; => ok
sc_start(10, SC_NS); => ok
sc_start(SC_ZERO_TIME); => ok
sc_signal<int> LIMIT; const int P = 1; => ok
const int n = LIMIT; => ok
sc_signal<int> s; sc_signal<int> s; => DeclaredTwice 2:34
sc_signal<int> s; sc_fifo<int> s(4, 4); => DeclaredTwice 2:32
P p(\"p\"); Q p(\"p\", 1, 2); => DeclaredTwice 2:13
P p(\"p\"); P p(1); => DeclaredTwice 2:13
const int n = 1; sc_clock n(\"n\", 1, SC_NS); => DeclaredTwice 2:27
const int n = 1; const int n = 2; => DeclaredTwice 2:28
X x(\"x\"); => UnknownName 2:1
x y(\"y\"); P x(\"x\"); => UnknownName 2:1
LIMIT x(\"x\"); => WrongKind 2:1
sc_signal<int> s; s x(\"x\"); => WrongKind 2:19
P p(\"p\"); p q(\"q\"); => WrongKind 2:11
argc x(\"x\"); => WrongKind 2:1
const int P = 1; P p(\"p\"); => WrongKind 2:18
P p(\"p\", 1); => WrongCount 2:3
P p(\"p\", \"q\"); => WrongCount 2:3
Q q(\"q\"); => WrongCount 2:3
Q q(\"q\", 1); => WrongCount 2:3
Q q(\"q\", 1, 2, 3); => WrongCount 2:3
sc_signal<int> s(\"s\", \"t\"); => WrongCount 2:16
sc_fifo<int> f(4, 4); => WrongCount 2:14
sc_fifo<int> f(\"f\", \"g\"); => WrongCount 2:14
sc_fifo<int> f(\"f\", 4, 4); => WrongCount 2:14
const int n = none; => UnknownName 2:15
const int n = n; => UnknownName 2:15
sc_fifo<int> f(n); const int n = 1; => UnknownName 2:16
sc_fifo<int> f(v); => UnknownName 2:16
sc_clock c(\"c\", none, SC_NS); => UnknownName 2:17
Q q(\"q\", 1, none); => UnknownName 2:13
sc_start(none, SC_NS); => UnknownName 2:10
sc_signal<int> s; const int n = s; => NotConstant 2:33
sc_signal<int> s; sc_fifo<int> f(s); => NotConstant 2:34
sc_signal<int> s; sc_fifo<int> f(1 + s); => NotConstant 2:34
sc_signal<int> s; sc_clock c(\"c\", s, SC_NS); => NotConstant 2:35
sc_signal<int> s; sc_clock c(\"c\", sc_time(s.read(), SC_NS)); => NotConstant 2:43
sc_signal<int> s; Q q(\"q\", 1, s); => NotConstant 2:31
sc_signal<int> s; sc_start(s, SC_NS); => NotConstant 2:28
sc_fifo<int> f; const int n = f; => WrongKind 2:31
sc_fifo<int> f; sc_start(f.num_free(), SC_NS); => NotConstant 2:26
sc_fifo<int> f; const int n = 1 + f.read(); => NotConstant 2:31
P p(\"p\"); const int n = p; => WrongKind 2:25
const int n = P; => WrongKind 2:15
const int n = none(1); => UnknownName 2:15
const int n = LIMIT(1); => WrongKind 2:15
P p(\"p\"); sc_signal<int> s; p.v(s); => NotAPort 2:31
P p(\"p\"); sc_signal<int> s; p.s(s); => NotAPort 2:31
P p(\"p\"); sc_signal<int> s; p.f(s); => NotAPort 2:31
P p(\"p\"); sc_signal<int> s; p.none(s); => NotAPort 2:31
P p(\"p\"); sc_signal<int> s; p.clk.bind(s); => NotAPort 2:31
Q q(\"q\", 1, 2); sc_signal<int> s; q.i(s); => NotAPort 2:37
P p(\"p\"); p.i(none); => UnknownName 2:15
P p(\"p\"); p.i(s); sc_signal<int> s; => UnknownName 2:15
sc_signal<int> s; p.i(s); P p(\"p\"); => UnknownName 2:19
sc_signal<int> s; none.i(s); => UnknownName 2:19
P p(\"p\"); p.none(none); => NotAPort 2:13
P p(\"p\"); p.i(p); p.o(LIMIT); => ok
P P(\"P\"); sc_signal<int> s; P.i(s); => ok
Q q(\"q\", 1, 2); sc_clock c(\"c\", 1, SC_NS); q.clk(c); => ok
P P(\"P\"); P q(\"q\"); => WrongKind 2:11
sc_signal<int> s; const int n = s[0]; => WrongKind 2:33
P p(\"p\"); p.bind(p); => NotAPort 2:13
sc_signal<int> s; const int n = s.foo(); => NotConstant 2:33
";

/// What the file declares, and from where on it is known.
pub static FILES: &str = "
const int A = 1; static const bool B = true; const int C = A + B; SC_MODULE(M) { int a[C]; }; => ok
using namespace std; SC_MODULE(A) {}; SC_MODULE(B) { A a; void f() {} }; => ok
const int A = B; const int B = 1; => UnknownName 2:15
const int A = A; => UnknownName 2:15
const int A = 1; const int A = 2; => DeclaredTwice 2:28
const int A = 1; SC_MODULE(A) {}; => DeclaredTwice 2:28
SC_MODULE(A) {}; SC_MODULE(A) {}; => DeclaredTwice 2:28
SC_MODULE(A) {}; const int A = 1; => DeclaredTwice 2:28
SC_MODULE(A) {}; SC_MODULE(A) { int v, v; }; => DeclaredTwice 2:28
SC_MODULE(A) {}; const int B = A; => WrongKind 2:32
SC_MODULE(A) { B b; }; SC_MODULE(B) {}; => UnknownName 2:16
SC_MODULE(A) { void f() { int v = N; } }; const int N = 1; => UnknownName 2:35
SC_MODULE(A) { int v[N]; }; const int N = 1; => UnknownName 2:22
SC_MODULE(A) { int v; }; SC_MODULE(B) { void f() { v = 1; } }; => UnknownName 2:52
SC_MODULE(A) { const int v = 1; }; const int C = v; => UnknownName 2:50
SC_MODULE(A) { void f() {} }; SC_MODULE(B) { void g() { f(); } }; => UnknownName 2:57
SC_MODULE(A) { void f() {} }; SC_MODULE(B) { void f() { f(); } }; => RecursiveCall 2:57
SC_MODULE(A) { void f() { g(); } void g() {} }; SC_MODULE(B) { void g() { f(); } void f() {} }; => ok
SC_MODULE(A) { void f() { wait(); } SC_CTOR(A) { SC_THREAD(f); } }; SC_MODULE(B) { void f() { wait(); } }; => WaitInFunction 2:95
SC_MODULE(A) { sc_in<int> i; }; SC_MODULE(B) { A a; sc_in<int> j; SC_CTOR(B) { a.i(j); } }; => ok
SC_MODULE(A) { sc_in<int> i; }; SC_MODULE(B) { A a; sc_in<int> j; SC_CTOR(B) { a.j(j); } }; => NotAPort 2:82
SC_MODULE(A) { int f(int z) { return A; } }; => UnknownName 2:38
const int A = f(1); => UnknownName 2:15
";

/// Whole texts.
pub static TEXTS: &str = "
int sc_main(int argc, char* argv[]) {} => ok
int sc_main(int, char*[]) {} => ok
int sc_main(int argc, char** argv) { sc_start(1, SC_NS); return 7; } => ok
int sc_main(int a, char* a[]) {} => DeclaredTwice 1:26
int sc_main(int a, char** a) {} => DeclaredTwice 1:27
SC_MODULE(M) {}; int sc_main(int M, char* argv[]) { M m(\"m\"); } => WrongKind 1:53
SC_MODULE(M) { SC_CTOR( => parser Syntax 1:24
@ => lexer BadByte 1:1
int sc_main(int, char*[]) { const int n = argc; } => UnknownName 1:43
";

/// Functions that are registered by both words: each registration counts.
pub static REGISTERED: &str = "
void run() { wait(); } SC_CTOR(M) { SC_METHOD(run); SC_THREAD(run); } => WaitInMethod 2:14
void run() { wait(); } SC_CTOR(M) { SC_THREAD(run); SC_METHOD(run); } => WaitInMethod 2:14
void run() { next_trigger(); } SC_CTOR(M) { SC_METHOD(run); SC_THREAD(run); } => DeclaredTwice 2:71
void run() { next_trigger(); } SC_CTOR(M) { SC_THREAD(run); SC_METHOD(run); } => DeclaredTwice 2:71
";

/// Children of what is no module: nothing else is told of them, whatever other modules there are.
pub static STRANGERS: &str = "
SC_MODULE(A) {}; SC_MODULE(M) { SC_CTOR(M) : x(\"x\", 1) {} X x; }; => UnknownName 2:59
SC_MODULE(A) { A(sc_module_name n, int a) : sc_module(n) {} }; SC_MODULE(M) { SC_CTOR(M) : x(\"x\") {} X x; }; => UnknownName 2:102
SC_MODULE(A) { sc_in<int> i; }; SC_MODULE(M) { SC_CTOR(M) { x.i(s); } X x; sc_signal<int> s; }; => UnknownName 2:71
SC_MODULE(A) {}; SC_MODULE(M) { SC_CTOR(M) { x.i(s); } X x; sc_signal<int> s; }; => UnknownName 2:56
const int N = 1; SC_MODULE(M) { SC_CTOR(M) : x(\"x\", 1) {} N x; }; => WrongKind 2:59
SC_MODULE(A) { A(sc_module_name n, int a) : sc_module(n) {} }; SC_MODULE(M) { SC_CTOR(M) : x(\"x\") {} int v; v x; }; => WrongKind 2:109
";

/// Where the language leaves it open: the answers of docs/DECISIONS.md on bodies.
pub static OPEN_BODIES: &str = "
return 1; => WrongKind 2:1
return none; => WrongKind 2:1
if (flag) return num; => WrongKind 2:11
if (flag) int one; one = 1; => UnknownName 2:20
if (flag) int one; else int one; => ok
while (flag) int one; int one; => ok
for (int one = 0; ; ) int one; => ok
int one = one; => UnknownName 2:11
int num = num; => ok
bool num = num > 1; num = !num; => ok
";

/// The same on members.
pub static OPEN_MEMBERS: &str = "
SC_HAS_PROCESS(N); => WrongKind 2:16
SC_HAS_PROCESS(P); => WrongKind 2:16
P p; int P; => WrongKind 2:1
int P; P p; => WrongKind 2:8
P p; => ok
Q q; => WrongCount 2:3
sc_signal<int> s{1}; => WrongCount 2:16
sc_signal<int> s{1, SC_NS}; => WrongCount 2:16
P p{1}; => WrongCount 2:3
Q q{1, 2}; => WrongCount 2:3
int v = f(1); int f(int z) { return z; } => EffectInside 2:9
int v = a[0]; const int a[2]; => NotConstant 2:9
sc_fifo<int> f{1, SC_NS}; => WrongCount 2:14
Q q{\"q\", 1, 2, SC_NS}; => WrongCount 2:3
int a[LIMIT]; int LIMIT; => NotConstant 2:7
";

/// The same on initialisers.
pub static OPEN_INITS: &str = "
sig(1) => WrongCount 2:1
in(1) => WrongCount 2:1
ev(1) => WrongCount 2:1
num(\"x\") => WrongCount 2:1
num(1, SC_NS) => WrongCount 2:1
kid(1) => WrongCount 2:1
big(1, 2) => WrongCount 2:1
big(\"b\", \"c\", 1) => WrongCount 2:1
big(\"b\", 1, 2, SC_NS) => WrongCount 2:1
size(1) => UnknownName 2:1
name(\"n\") => UnknownName 2:1
sc_module(1) => WrongKind 2:11
sc_module(size) => WrongKind 2:11
";

/// The same on bindings of constructors.
pub static OPEN_SETUPS: &str = "
num.i(sig) ; => NotAPort 2:5
in.read(sig); => NotAPort 2:4
";

/// The same on `sc_main`.
pub static OPEN_MAINS: &str = "
sc_signal<int> argc; => ok
const int n = argc; => WrongKind 2:15
sc_start(argc, SC_NS); => WrongKind 2:10
sc_clock c(\"c\", 1, SC_NS); const int n = c; => NotConstant 2:42
sc_signal<int> s; s.i(s); => NotAPort 2:21
sc_signal<int> s(1); => WrongCount 2:16
P p(1); => WrongCount 2:3
Q q(1, 2); => WrongCount 2:3
sc_fifo<int> f(\"f\", 1, SC_NS); => WrongCount 2:14
";

/// The shortest texts of docs/REFUSALS.md.
pub static SHORTEST: &str = "
00 => lexer BadNumber 1:1
9223372036854775808 => lexer NumberTooWide 1:1
\" => lexer TextNotClosed 1:1
/* => lexer CommentNotClosed 1:1
# => lexer Directive 1:1
new => parser NotInProfile 1:1
const int a=(((((((((((((((((((((((((((((((((((((((((((((((((((((((((((((((((1 => parser TooDeep 1:78
int sc_main(int,char**){a.a(a);} => UnknownName 1:25
int sc_main(int a,char**a){} => DeclaredTwice 1:25
int sc_main(int a,char**){a b(1);} => WrongKind 1:27
SC_MODULE(M){void f(){wait();}SC_CTOR(M){SC_METHOD(f);}};int sc_main(int,char**){} => WaitInMethod 1:23
SC_MODULE(M){void f(){wait();}};int sc_main(int,char**){} => WaitInFunction 1:23
SC_MODULE(M){void f(){f();}};int sc_main(int,char**){} => RecursiveCall 1:23
SC_MODULE(M){};int sc_main(int,char**){M m(\"m\");m.p(m);} => NotAPort 1:51
int sc_main(int,char**){sc_fifo<int>f(1,1);} => WrongCount 1:37
SC_MODULE(M){int f(){}void g(){if(f());}};int sc_main(int,char**){} => EffectInside 1:35
SC_MODULE(M){int a,b=a;};int sc_main(int,char**){} => NotConstant 1:22
";
