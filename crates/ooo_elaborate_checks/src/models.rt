//! Whole bound models, worked out by hand.

use crate::outcomes::written;
use std::alloc::Global;
use std::process::Abort;
use std::test::Fail;

static CLOCKED: &str = "#include <systemc>
#include <iostream>
using namespace sc_core;
using namespace std;

SC_MODULE(Producer) {
  sc_in<bool> clk;
  sc_fifo_out<int> out;
  int count;
  void run() {
    while (true) {
      wait();
      count = count + 1;
      out.write(count);
    }
  }
  SC_CTOR(Producer) {
    count = 0;
    SC_THREAD(run);
    sensitive << clk.pos();
  }
};

SC_MODULE(Consumer) {
  sc_fifo_in<int> in;
  void run() {
    while (true) {
      int v = in.read();
      cout << sc_time_stamp() << \": \" << v << endl;
    }
  }
  SC_CTOR(Consumer) { SC_THREAD(run); }
};

int sc_main(int argc, char* argv[]) {
  sc_clock clk(\"clk\", 10, SC_NS);
  sc_fifo<int> queue;
  Producer p(\"p\");
  Consumer c(\"c\");
  p.clk(clk);
  p.out(queue);
  c.in(queue);
  sc_start(25, SC_NS);
  return 0;
}
";

static CLOCKED_MODEL: &str = "processes clk p.run c.run
thread starts [] {36:do {36:s0 := 1b; 36:wait =5000 []; 36:s0 := 0b; 36:wait =5000 [];} while (1b)}
thread starts [1] {11:while (1b) {12:wait static - []; 13:v0 := (+ v0 1i); 14:put 1 v0;}}
thread starts [] {27:while (1b) {{28:$0i := read 1;} 29:print time \": \" $0i \"\\n\";}}
variable i 1 0i
channels clk queue
signal b
fifo i 16
changed 0
rise 0
fall 0
written 1
taken 1
stop =25000
";

static NESTED: &str = "const int BASE = 2;
SC_MODULE(Leaf) {
  sc_in<bool> clk; sc_out<int> o; sc_event done;
  int sum, tab[BASE + 1]; static const unsigned STEP = 3;
  int twice(int a) { return a + a; }
  void add(int a, bool b) { int c = a; if (b) { c += 1; } sum = twice(c); }
  void run() { add(sum, true); o = sum; tab[sum % 3] = STEP; done.notify(BASE, SC_NS); }
  void watch() { next_trigger(done); sum--; }
  SC_CTOR(Leaf) : sum(BASE) { SC_METHOD(run); sensitive << clk.neg() << done; dont_initialize(); SC_METHOD(watch); sum = 7; }
};
SC_MODULE(Mid) {
  sc_signal<int> s; Leaf a, b; sc_in_clk ck; sc_signal<int> t;
  long long top(bool up) { while (up) { if (s > t) break; else up = false; } return s * 2ll; }
  void go() { int i; for (i = 0; i < 2; ++i) { wait(i, SC_US, s.value_changed_event() | ck.posedge_event()); }
    long long z = top(!ck.posedge() || ck); do { z = z ? ~z : +i; continue; } while (t.event() && ck.negedge());
    cout << (bool) i << \"x\" << -z << sc_time_stamp() << endl; sc_stop(); return; }
  SC_CTOR(Mid) { a.clk(ck); a.o(s); b.clk(ck); b.o(t); SC_THREAD(go); }
};
SC_MODULE(Top) { sc_in<bool> c; Mid m; SC_CTOR(Top) { m.ck.bind(c); } };
int sc_main(int argc, char* argv[]) {
  sc_signal<bool> clk; Top t(\"t\"); t.c(clk); sc_start(); }
";

static NESTED_MODEL: &str = "processes t.m.a.run t.m.a.watch t.m.b.run t.m.b.watch t.m.go
method waits [2 4] {7:_ := call 0(v0, 1b); 7:s1 := v0; 7:v1[(% v0 3i)] := 3u; 7:notify 4 =2000;}
method starts [] {8:trigger - [4]; 8:v0 -= 1i;}
method waits [2 5] {7:_ := call 2(v2, 1b); 7:s2 := v2; 7:v3[(% v2 3i)] := 3u; 7:notify 5 =2000;}
method starts [] {8:trigger - [5]; 8:v2 -= 1i;}
thread starts [] {{14:$0i := 0i;} 14:for (14:$0i := 0i;; (< $0i 2i); 14:$0i += 1i;) {14:wait $0i us [3 1];} \
{15:$1l := call 4((|| (! rise 0) s0));} 15:do {15:$1l := (?l $1l (~ $1l) (+ $0i)); 15:continue;} while ((&& changed 2 fall 0)) \
16:print (b $0i) \"x\" (- $1l) time \"\\n\"; 16:stop; 16:return;}
function void (i,b,) {{6:$2i := $0i;} 6:if ($1b) {6:$2i += 1i;} 6:v0 := call 1($2i);}
function i (i,) {5:return (+ $0i $0i);}
function void (i,b,) {{6:$2i := $0i;} 6:if ($1b) {6:$2i += 1i;} 6:v2 := call 3($2i);}
function i (i,) {5:return (+ $0i $0i);}
function l (b,) {13:while ($0b) {13:if ((> s1 s2)) 13:break; else 13:$0b := 0b;} 13:return (* s1 2l);}
variable i 1 7i
variable i 3 0i
variable i 1 7i
variable i 3 0i
channels clk t.m.s t.m.t
signal b
signal i
signal i
changed 0
rise 0
fall 0
changed 1
own
own
changed 2
stop
";

static PIPELINE: &str = "SC_MODULE(Source) { sc_fifo_out<int> out; const int items;
  Source(sc_module_name n, int m) : sc_module(n), items(m) { SC_THREAD(run); }
  void run() { for (int i = 0; i < items; i++) { out.write(i); wait(1, SC_NS); } } };
SC_MODULE(Stage) { sc_fifo_in<int> in; sc_fifo_out<int> out; const int add; const unsigned gap;
  SC_HAS_PROCESS(Stage);
  Stage(sc_module_name n, int a, int g) : sc_module(n), add(a * 2), gap(g) { SC_THREAD(run); }
  void run() { while (true) { int v = in.read(); wait(gap, SC_NS); out.write(v + add); } } };
SC_MODULE(Drain) { sc_fifo_in<int> in; bool got; unsigned long long seen[2];
  void run() { int v; got = in.nb_read(v); if (!got) wait(in.data_written_event()); seen[v & 1] = in.num_available(); in.nb_read(seen[0]); }
  SC_CTOR(Drain) : got(true) { SC_THREAD(run); sensitive << in.data_written(); } };
SC_MODULE(Pipe) { sc_fifo_in<int> in; Stage a, b{\"b\", -1, 1}; sc_fifo<int> mid; sc_fifo_out<int> out; const int n;
  Pipe(sc_module_name name, int size) : sc_module(name), mid(size), a(\"a\", size + n, 9), n(5) {
    a.in(in); a.out(mid); b.in(mid); b.out(out); } };
int sc_main(int, char*[]) { const int k = 3;
  sc_fifo<int> f(\"f\", k); sc_fifo<int> g;
  Source s(\"s\", k + 4); Pipe p(\"p\", 6); Drain d(\"d\");
  s.out(f); p.in(f); p.out(g); d.in(g); sc_start(2, SC_US); }
";

static PIPELINE_MODEL: &str = "processes s.run p.a.run p.b.run d.run
thread starts [] {3:for (3:$0i := 0i;; (< $0i 7i); 3:$0i += 1i;) {3:put 0 $0i; 3:wait =1000 [];}}
thread starts [] {7:while (1b) {{7:$0i := read 0;} 7:wait =9000 []; 7:put 2 (+ $0i 12i);}}
thread starts [] {7:while (1b) {{7:$0i := read 2;} 7:wait =1000 []; 7:put 1 (+ $0i -2i);}}
thread starts [2] {{9:$0i := 0i;} 9:v0 := nb_read 1 $0i; 9:if ((! v0)) 9:wait - [2]; \
9:v1[(& $0i 1i)] := available 1; 9:_ := nb_read 1 v1[0i];}
variable b 1 1b
variable ul 2 0ul
channels f g p.mid
fifo i 3
fifo i 16
fifo i 6
written 0
taken 0
written 1
taken 1
written 2
taken 2
stop =2000000
";

// Each spelling of an event, each operator, and each statement that the others have not.
static SPELLINGS: &str = "SC_MODULE(K) {
  sc_in<bool> b; sc_in<int> i; sc_out<bool> o; sc_inout<int> u; sc_fifo_in<int> r; sc_fifo_out<int> w; sc_event e;
  bool g; unsigned n; long long l[4];
  void f() {}
  void t() {}
  void all() { while (true) {
    wait(e | b.value_changed_event() | b.default_event() | b.posedge_event() | b.negedge_event());
    wait(i.default_event() | o.posedge_event() | u.value_changed_event() | r.data_written_event() | w.data_read_event());
    wait(SC_ZERO_TIME, e); e.notify(n, SC_MS); e.cancel(); g = w.nb_write(n + 1); w.nb_write(3); n = w.num_free(); w.write(u);
    n |= 1; n <<= 2; --l[n]; l[1] ^= n; n -= 3; n *= 4; n /= 5; n %= 6; n &= 7; n >>= 8;
    g = n >= 1 && n <= 2 || n != 3; n = n & 1 | n ^ 2; n = n - 1 / 2; g = n == l[0]; g = !g; o = g; u.write(n << 1 >> n); f(); break; } }
  SC_CTOR(K) { SC_METHOD(f); sensitive << e << b << i; sensitive << b.pos() << b.neg() << b.value_changed();
    SC_THREAD(t); sensitive << r.data_written() << w.data_read(); dont_initialize();
    sensitive << o << u.value_changed_event() << i.default_event() << e; SC_THREAD(all); } };
int sc_main(int, char*[]) { sc_signal<bool> sb; sc_signal<int> si; sc_signal<bool> so; sc_signal<int> su; sc_fifo<int> q; sc_fifo<int> z;
  K k(\"k\"); k.b(sb); k.i(si); k.o(so); k.u(su); k.r(q); k.w(z); }
";

static SPELLINGS_MODEL: &str = "processes k.f k.t k.all
method starts [12 0 3 1 2 0] {}
thread waits [8 11 4 7 3 12] {}
thread starts [] {6:while (1b) {7:wait - [12 0 0 1 2]; 8:wait - [3 5 7 8 11]; \
9:wait =0 [12]; 9:notify 12 v1 ms; 9:cancel 12; 9:v0 := nb_write 5 (+ v1 1i); 9:_ := nb_write 5 3i; 9:v1 := free 5; 9:put 5 s3; \
10:v1 |= 1i; 10:v1 <<= 2i; 10:v2[v1] -= 1i; 10:v2[1i] ^= v1; 10:v1 -= 3i; 10:v1 *= 4i; 10:v1 /= 5i; 10:v1 %= 6i; 10:v1 &= 7i; 10:v1 >>= 8i; \
11:v0 := (|| (&& (>= v1 1i) (<= v1 2i)) (!= v1 3i)); 11:v1 := (| (& v1 1i) (^ v1 2i)); 11:v1 := (- v1 (/ 1i 2i)); \
11:v0 := (== v1 v2[0i]); 11:v0 := (! v0); 11:s2 := v0; 11:s3 := (>> (<< v1 1i) v1); 11:_ := call 0(); 11:break;}}
function void () {}
variable b 1 0b
variable u 1 0u
variable l 4 0l
channels sb si so su q z
signal b
signal i
signal b
signal i
fifo i 16
fifo i 16
changed 0
rise 0
fall 0
changed 1
changed 2
rise 2
fall 2
changed 3
written 4
taken 4
written 5
taken 5
own
stop
";

// The lines of a text's model are these.
fn try_model(rt: &impl Abort, alloc: Global, text: &str, wanted: &str) -> Result<(), Fail> {
    let found = written(rt, alloc, text.as_bytes())?;
    let text = String::from_utf8_lossy(alloc, found.as_slice())?;
    assert!(rt; found.as_slice() == wanted.as_bytes(), "\n{text}");
    Ok(())
}

#[test]
fn a_clocked_producer(rt: HostRuntime) -> Result<(), Fail> {
    try_model(&rt, rt.alloc(), CLOCKED, CLOCKED_MODEL)
}

#[test]
fn modules_three_deep(rt: HostRuntime) -> Result<(), Fail> {
    try_model(&rt, rt.alloc(), NESTED, NESTED_MODEL)
}

#[test]
fn a_pipeline_with_parameters(rt: HostRuntime) -> Result<(), Fail> {
    try_model(&rt, rt.alloc(), PIPELINE, PIPELINE_MODEL)
}

#[test]
fn each_spelling(rt: HostRuntime) -> Result<(), Fail> {
    try_model(&rt, rt.alloc(), SPELLINGS, SPELLINGS_MODEL)
}
