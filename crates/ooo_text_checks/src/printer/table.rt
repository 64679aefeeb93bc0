//! Texts that use each alternative of the grammar: one a line, with what stands around it in its table's frame.

/// Whole files.
pub static FILES: &str = "
int sc_main(int argc, char* argv[]) {}
int sc_main(int, char* []) {}
int sc_main(int a, char** b) {}
int sc_main(int a, char* *) {}
using namespace sc_core; int sc_main(int argc, char* argv[]) {}
using namespace sc_dt; int sc_main(int argc, char* argv[]) {}
using namespace std; int sc_main(int argc, char* argv[]) {}
const int n = 1; int sc_main(int argc, char* argv[]) {}
static const int n = 1; int sc_main(int argc, char* argv[]) {}
const bool b = true; int sc_main(int argc, char* argv[]) {}
SC_MODULE(M) {}; int sc_main(int argc, char* argv[]) {}
std::int std::sc_main(std::int, std::char*[]) {}
using namespace std::std; int sc_main(int argc, char* argv[]) {}
using namespace std::sc_core; int sc_main(int argc, char* argv[]) {}
using std::namespace std; int sc_main(int argc, char* argv[]) {}
SC_MODULE(std::M) {}; int sc_main(int argc, char* argv[]) {}
SC_MODULE(M) { sc_core::sc_in<bool> a; sc_core::sc_event e; }; int sc_main(int argc, char* argv[]) {}
const std::int n = std::x; int sc_main(int argc, char* argv[]) {}
";

/// Members of a module.
pub static MEMBERS: &str = "
bool x;
int x;
unsigned x;
unsigned int x;
long long x;
long long int x;
unsigned long long x;
unsigned long long int x;
x y;
public:
SC_HAS_PROCESS(M);
int a, b, c;
int a = 1, b[2], c;
const int a = 1, b = 2;
const int a[2];
static const int a = 1;
const bool a;
sc_in<bool> a;
sc_in<int> a, b;
sc_out<int> a;
sc_inout<int> a;
sc_fifo_in<int> a;
sc_fifo_out<int> a;
sc_in_clk a;
sc_in_clk a, b;
sc_signal<int> a;
sc_signal<int> a, b{\"b\"};
sc_fifo<int> a{\"a\", 4};
sc_event e;
sc_event e, f;
N n;
N n{\"n\"};
N n{\"n\", 1, 2}, m;
void f() {}
int f() { return 1; }
unsigned long long f(int a, bool b) {}
SC_CTOR(M) {}
SC_CTOR(M) {};
SC_CTOR(M) : a(1) {}
SC_CTOR(M) : a(\"a\"), b(), c(1, 2) {}
SC_CTOR(M) : a(1, SC_NS) {}
SC_CTOR(M) : a(1, SC_NS, 2) {}
SC_CTOR(M) : a(SC_ZERO_TIME) {}
SC_CTOR(M) : a(sc_time(1, SC_NS)) {}
SC_CTOR(M) : a(1, 2, SC_NS, \"x\") {}
M(sc_module_name n) : sc_module(n) {}
M(sc_module_name n, int a, bool b) : sc_module(n), x(a) {};
";

/// What stands in a constructor.
pub static SETUPS: &str = "
SC_THREAD(f);
SC_METHOD(f);
sensitive << a;
sensitive << a << b.pos() << c.value_changed_event();
sensitive << a.bind();
dont_initialize();
n.p(s);
n.p.bind(s);
n.notify.bind(q);
n.cancel.bind(q);
n.bind(q);
n.bind.bind(q);
x = 1;
x = 1 + y;
";

/// What stands in `sc_main`.
pub static MAINS: &str = "
return 0;
sc_start();
sc_start(1, SC_NS);
sc_start(sc_time(1, SC_NS));
sc_start(SC_ZERO_TIME);
sc_signal<int> s;
sc_signal<int> s(\"s\");
sc_fifo<int> q(\"q\", 4);
sc_clock c(\"c\", 10, SC_NS);
sc_clock c(\"c\", sc_time(10, SC_NS));
sc_clock c(\"c\", SC_ZERO_TIME);
M m(\"m\");
M m(\"m\", 1, 2);
m.p(s);
m.p.bind(s);
m.notify.bind(s);
const int n = 1;
static const bool b = false;
const int n = 1; sc_fifo<int> q(4); M m(\"m\"); m.p(q); sc_start(1 + 1, SC_MS); return 0xFFu;
";

/// Statements of a function.
pub static STATEMENTS: &str = "
;
;;
{}
{ ; { } }
break;
continue;
return;
return 1;
if (a) ;
if (a) ; else ;
if (a) if (b) ; else ; else ;
if (a) while (b) if (c) ; else ;
while (a) ;
do ; while (a);
do { } while (a) ;
for (;;) ;
for (int i = 0; i < 9; i++) ;
for (int i = 0, j = 1; i < j; ++i) { }
for (i = 0; ; ) ;
for (f(); a; f()) ;
for (int i; ; wait()) ;
int a;
bool a = true, b;
unsigned long long a = 1, b = 2, c;
long long a = x ? 1 : 2;
int bind, notify = 1, cancel;
x = 1;
x += 1;
x -= 1;
x *= 1;
x /= 1;
x %= 1;
x &= 1;
x |= 1;
x ^= 1;
x <<= 1;
x >>= 1;
x[1] = 2;
x[1]++;
x++;
x--;
++x;
--x;
++x[1];
f();
f(1, 2);
x.f();
x.f(1);
e.notify(1, SC_NS);
e.notify(SC_ZERO_TIME);
e.notify(sc_time(1, SC_NS));
e.cancel();
e.bind(1);
notify = 1;
cancel++;
bind();
sc_stop();
wait();
wait(1, SC_NS);
wait(1 + 2, SC_US);
wait(SC_ZERO_TIME);
wait(sc_time(1, SC_MS));
wait(e);
wait(e | f);
wait(e | f | g.posedge_event());
wait(x.y());
wait(1, SC_NS, e);
wait(1, SC_NS, e | f);
wait(SC_ZERO_TIME, e);
wait(sc_time(1, SC_SEC), e);
wait((a), SC_NS);
wait(a | b, SC_NS);
wait(a | b, SC_NS, c);
wait(a.b(1), SC_PS);
wait(f(), SC_NS);
wait(a ? b : c, SC_NS);
next_trigger();
next_trigger(e);
next_trigger(1, SC_NS, e | f);
cout << 1;
cout << \"a\" << x << endl;
cout << sc_time_stamp() << endl;
cout << a + b;
cout << (a << b);
cout << (a < b);
cout << -a * b;
std::cout << 1 << std::endl;
{ } ; ;
cout << \"a\\n\\t\\\\ \\\"b\\\" \" << \"\" << a;
";

/// Values of an assignment.
pub static EXPRESSIONS: &str = "
1
a
a || b
a && b
a | b
a ^ b
a & b
a == b
a != b
a < b
a <= b
a > b
a >= b
a << b
a >> b
a + b
a - b
a * b
a / b
a % b
a ? b : c
a ? b : c ? d : e
a ? b ? c : d : e
!a
~a
-a
+a
- - a
!~-+a
a - - b
0
0x1F
1ull
true
false
a[1]
a[a[1]]
(a)
((a))
f()
f(1)
f(1, 2)
a.read()
a.b(1)
a.b()
a.bind()
notify
cancel(bind)
nullptr
(int) a
(bool) a
(unsigned) a
(unsigned int) a
(long long) a
(long long int) a
(unsigned long long) a
(unsigned long long int) a
(int) (bool) a
(int) -a
-(int) a
(int) a + b
((int) a)
int(a)
bool(a)
unsigned(a)
int(a) + b
(int(a))
(int(a) + b)
(int(a) + b) * c
(int)(a)
(int)(a) + (b)
(unsigned(a))
(bool(a) ? b : c)
(std::int) a
std::int(a)
std::a
sc_core::a
std::std::a
std::sc_core::std::a
a.std::read()
std::int(a)
std::notify
0 + 2147483648 + 1u + 1LL + 1ULL + 0xfFll + 4294967296u + 18446744073709551615ull
";
