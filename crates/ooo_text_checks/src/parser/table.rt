//! Texts of each form, with near misses, and what they are refused as: one a line. `NAME LINE:COLUMN` is the place in
//! the whole text, whose second line is the one that stands here, but for whole files.

pub static FILES: &str = "
int sc_main(int argc, char* argv[]) {} => ok
int sc_main(int, char* []) {} => ok
int sc_main(int a, char** b) {} => ok
int sc_main(int a, char* *) {} => ok
int sc_main(int a, char* b) {} => Syntax 1:27
int sc_main(int a, char b[]) {} => Syntax 1:25
int main(int a, char* b[]) {} => Syntax 1:5
void sc_main() {} => Syntax 1:1
int sc_main() {} => Syntax 1:13
int sc_main(int a char* b[]) {} => NotInProfile 1:19
int sc_main(int a, char* b[] {} => Syntax 1:30
int sc_main(int a, char* b[]) { => Syntax 1:32
int sc_main(int a, char* b[]) {} ; => Syntax 1:34
int sc_main(int a, char* b[]) {}int sc_main(int argc, char* argv[]) {} => Syntax 1:33
int sc_main(int a, char* b[1]) {} => Syntax 1:28
 => Syntax 1:1
  => Syntax 1:2
int => Syntax 1:4
{ => Syntax 1:1
1 => Syntax 1:1
using namespace sc_core; int sc_main(int argc, char* argv[]) {} => ok
using namespace sc_dt; int sc_main(int argc, char* argv[]) {} => ok
using namespace std; int sc_main(int argc, char* argv[]) {} => ok
using namespace x; int sc_main(int argc, char* argv[]) {} => Syntax 1:17
using namespace std int sc_main(int argc, char* argv[]) {} => Syntax 1:21
using std; int sc_main(int argc, char* argv[]) {} => Syntax 1:10
using std::cout; int sc_main(int argc, char* argv[]) {} => Syntax 1:12
namespace a {} int sc_main(int argc, char* argv[]) {} => NotInProfile 1:1
const int n = 1; int sc_main(int argc, char* argv[]) {} => ok
static const int n = 1; int sc_main(int argc, char* argv[]) {} => ok
const static int n = 1; int sc_main(int argc, char* argv[]) {} => Syntax 1:7
const bool b = true; int sc_main(int argc, char* argv[]) {} => ok
const int n; int sc_main(int argc, char* argv[]) {} => Syntax 1:12
const int n = 1, m = 2; int sc_main(int argc, char* argv[]) {} => Syntax 1:16
int n = 1; int sc_main(int argc, char* argv[]) {} => Syntax 1:5
const int n = ; int sc_main(int argc, char* argv[]) {} => Syntax 1:15
const double d = 1; int sc_main(int argc, char* argv[]) {} => NotInProfile 1:7
static int n = 1; int sc_main(int argc, char* argv[]) {} => Syntax 1:8
SC_MODULE(M) {}; int sc_main(int argc, char* argv[]) {} => ok
SC_MODULE(M) {} int sc_main(int argc, char* argv[]) {} => Syntax 1:17
SC_MODULE() {}; int sc_main(int argc, char* argv[]) {} => Syntax 1:11
SC_MODULE(M, N) {}; int sc_main(int argc, char* argv[]) {} => Syntax 1:12
SC_MODULE(wait) {}; int sc_main(int argc, char* argv[]) {} => Syntax 1:11
SC_MODULE(M) { SC_CTOR( => Syntax 1:24
struct M {}; int sc_main(int argc, char* argv[]) {} => NotInProfile 1:1
template<int n> int sc_main(int argc, char* argv[]) {} => NotInProfile 1:1
SC_MODULE(M); int sc_main(int argc, char* argv[]) {} => Syntax 1:13
";

pub static TYPES: &str = "
bool x; => ok
int x; => ok
unsigned x; => ok
unsigned int x; => ok
long long x; => ok
long long int x; => ok
unsigned long long x; => ok
unsigned long long int x; => ok
long x; => Syntax 2:6
long int x; => Syntax 2:6
unsigned long x; => Syntax 2:15
int unsigned x; => Syntax 2:5
int long x; => Syntax 2:5
long long long x; => Syntax 2:11
signed x; => NotInProfile 2:1
short x; => NotInProfile 2:1
char x; => NotInProfile 2:1
float x; => NotInProfile 2:1
double x; => NotInProfile 2:1
auto x; => NotInProfile 2:1
x y; => ok
const x; => Syntax 2:7
bool int x; => Syntax 2:6
unsigned bool x; => Syntax 2:10
sc_int x; => NotInProfile 2:1
sc_uint<8> x; => NotInProfile 2:1
sc_bv<8> x; => NotInProfile 2:1
unsigned => Syntax 3:1
";

pub static MEMBERS: &str = "
 => ok
public: => ok
public => Syntax 3:1
private: => NotInProfile 2:1
SC_HAS_PROCESS(M); => ok
SC_HAS_PROCESS(M) => Syntax 3:1
int a, b, c; => ok
int a = 1, b[2], c; => ok
int a[]; => Syntax 2:7
int a[2][2]; => Syntax 2:9
int a[2] = 1; => Syntax 2:10
int a, ; => Syntax 2:8
int a =; => Syntax 2:8
int a => Syntax 3:1
const int a = 1, b = 2; => ok
const int a[2]; => ok
static const int a = 1; => ok
static int a; => Syntax 2:8
static const int a; => Syntax 2:19
const bool a; => ok
sc_in<bool> a; => ok
sc_in<int> a, b; => ok
sc_out<int> a; => ok
sc_inout<int> a; => ok
sc_fifo_in<int> a; => ok
sc_fifo_out<int> a; => ok
sc_in_clk a; => ok
sc_in_clk a, b; => ok
sc_in a; => Syntax 2:7
sc_in<> a; => Syntax 2:7
sc_in<int a; => Syntax 2:11
sc_in<int>; => Syntax 2:11
sc_in<int> a{\"a\"}; => Syntax 2:13
sc_in<int, 1> a; => Syntax 2:10
sc_in_clk<bool> a; => Syntax 2:10
sc_port<int> a; => NotInProfile 2:1
sc_export<int> a; => NotInProfile 2:1
sc_signal<int> a; => ok
sc_signal<int> a, b{\"b\"}; => ok
sc_fifo<int> a{\"a\", 4}; => ok
sc_fifo<int> a(4); => Syntax 2:15
sc_signal<int, SC_MANY_WRITERS> a; => NotInProfile 2:14
sc_signal<long long, SC_ONE_WRITER> a; => NotInProfile 2:20
sc_fifo<int, 4> a; => Syntax 2:12
sc_signal<unsigned long, 1> a; => Syntax 2:24
sc_signal<sc_signal<int> > a; => Syntax 2:11
sc_signal<int> => Syntax 3:1
sc_signal<double> a; => NotInProfile 2:11
sc_signal int a; => Syntax 2:11
sc_buffer<int> a; => Syntax 2:10
sc_event e; => ok
sc_event e, f; => ok
sc_event e{\"e\"}; => Syntax 2:11
sc_event; => Syntax 2:9
sc_event_queue e; => NotInProfile 2:1
sc_mutex m; => NotInProfile 2:1
sc_semaphore s; => NotInProfile 2:1
sc_vector<int> v; => NotInProfile 2:1
N n; => ok
N n{\"n\"}; => ok
N n{\"n\", 1, 2}, m; => ok
N n(\"n\"); => Syntax 2:4
N n{}; => Syntax 2:5
N n{\"n\" => Syntax 4:5
N n[2]; => Syntax 2:4
N *n; => Syntax 2:3
N; => Syntax 2:2
enum E { a }; => NotInProfile 2:1
typedef int I; => NotInProfile 2:1
class C {}; => NotInProfile 2:1
operator x; => NotInProfile 2:1
friend N; => NotInProfile 2:1
virtual void f() {} => NotInProfile 2:1
explicit M(int); => NotInProfile 2:1
";

pub static FUNCTIONS: &str = "
void f() {} => ok
int f() { return 1; } => ok
unsigned long long f(int a, bool b) {} => ok
void f(void) {} => Syntax 2:8
void f(int) {} => Syntax 2:11
void f(int a,) {} => Syntax 2:14
void f(int a b) {} => Syntax 2:14
void f(); => Syntax 2:9
void f() {}; => Syntax 2:12
void f() const {} => Syntax 2:10
f() {} => Syntax 2:3
void f {} => Syntax 2:8
void () {} => Syntax 2:6
void f(int a = 1) {} => Syntax 2:14
void f(int& a) {} => Syntax 2:11
void f(int a[]) {} => Syntax 2:13
void f(x a) {} => Syntax 2:8
int f(, int a) {} => Syntax 2:7
";

pub static CONSTRUCTORS: &str = "
SC_CTOR(M) {} => ok
SC_CTOR(M) {}; => ok
SC_CTOR(M) {};; => Syntax 2:15
SC_CTOR(M) : a(1) {} => ok
SC_CTOR(M) : a(\"a\"), b(), c(1, 2) {} => ok
SC_CTOR(M) : {} => Syntax 2:14
SC_CTOR(M) : a {} => Syntax 2:16
SC_CTOR(M) : a(1) b(2) {} => Syntax 2:19
SC_CTOR(M) a(1) {} => Syntax 2:12
SC_CTOR {} => Syntax 2:9
SC_CTOR(M); => Syntax 2:11
SC_CTOR(M, int n) {} => Syntax 2:10
SC_CTOR(M) : a(1, SC_NS) {} => ok
SC_CTOR(M) : a(1, SC_NS, 2) {} => ok
SC_CTOR(M) : a(SC_ZERO_TIME) {} => ok
SC_CTOR(M) : a(sc_time(1, SC_NS)) {} => ok
SC_CTOR(M) : a(1, SC_NS SC_NS) {} => Syntax 2:25
SC_CTOR(M) : a(SC_NS) {} => Syntax 2:16
SC_CTOR(M) : a(\"a\", SC_NS) {} => Syntax 2:21
SC_CTOR(M) : a(1, 2, SC_NS, \"x\") {} => ok
SC_CTOR(M) : a(1, SC_NS, SC_NS) {} => Syntax 2:26
SC_CTOR(M) : a(1,) {} => Syntax 2:18
M(sc_module_name n) : sc_module(n) {} => ok
M(sc_module_name n, int a, bool b) : sc_module(n), x(a) {}; => ok
M(sc_module_name n) {} => ok
M(sc_module_name n, int a) {}; => ok
M(sc_module_name n) : {} => Syntax 2:23
M(sc_module_name n), {} => Syntax 2:20
M(sc_module_name n); => Syntax 2:20
M(int a) : sc_module(a) {} => Syntax 2:3
M(sc_module_name) : sc_module(n) {} => Syntax 2:17
M(sc_module_name n, a) : sc_module(n) {} => Syntax 2:21
M(sc_module_name n int a) : sc_module(n) {} => Syntax 2:20
M() {} => Syntax 2:3
";

pub static SETUPS: &str = "
 => ok
SC_THREAD(f); => ok
SC_METHOD(f); => ok
SC_THREAD(f) => Syntax 3:1
SC_THREAD(); => Syntax 2:11
SC_THREAD(f, g); => Syntax 2:12
SC_CTHREAD(f, clk); => NotInProfile 2:1
sensitive << a; => ok
sensitive << a << b.pos() << c.value_changed_event(); => ok
sensitive(a); => Syntax 2:10
sensitive << ; => Syntax 2:14
sensitive << a.pos; => Syntax 2:19
sensitive << a.pos(1); => Syntax 2:20
sensitive << a.notify(); => Syntax 2:16
sensitive << a.cancel(); => Syntax 2:16
sensitive << a.bind(); => ok
sensitive << a + b; => Syntax 2:16
dont_initialize(); => ok
dont_initialize; => Syntax 2:16
dont_initialize(1); => Syntax 2:17
n.p(s); => ok
n.p.bind(s); => ok
n.p.bind(); => Syntax 2:10
n.p.bind(s, t); => Syntax 2:11
n.p(); => Syntax 2:5
n.p(s) => Syntax 3:1
n.p(1); => Syntax 2:5
n.p.q(s); => Syntax 2:5
n.notify(q); => Syntax 2:9
n.notify.bind(q); => ok
n.cancel(q); => Syntax 2:9
n.cancel.bind(q); => ok
n.bind(q); => ok
n.bind.bind(q); => ok
n.p = s; => Syntax 2:5
n(s); => Syntax 2:2
x = 1; => ok
x = 1 + y; => ok
x += 1; => Syntax 2:3
x[1] = 1; => Syntax 2:2
x; => Syntax 2:2
if (x) {} => Syntax 2:1
int x; => Syntax 2:1
wait(); => Syntax 2:1
cout << 1; => Syntax 2:1
";

pub static MAINS: &str = "
 => ok
return 0; => ok
return -1; => Syntax 2:8
return; => Syntax 2:7
return 0; return 0; => Syntax 2:11
sc_start(); => ok
sc_start(1, SC_NS); => ok
sc_start(sc_time(1, SC_NS)); => ok
sc_start(SC_ZERO_TIME); => ok
sc_start(1); => Syntax 2:11
sc_start(1, 2); => Syntax 2:13
sc_start(1 SC_NS); => Syntax 2:12
sc_start(); sc_start(); => Syntax 2:13
return 0; sc_start(); => Syntax 2:11
sc_start(1, SC_FS); => NotInProfile 2:13
sc_start => Syntax 3:1
sc_signal<int> s; => ok
sc_signal<int> s(\"s\"); => ok
sc_fifo<int> q(\"q\", 4); => ok
sc_fifo<int> q(); => Syntax 2:16
sc_fifo<int> q{4}; => Syntax 2:15
sc_signal<int> s, t; => ok
sc_signal<int> s, t(\"t\"), u; => ok
sc_fifo<int> q(\"q\", 4), r; => ok
sc_signal<int> s,; => Syntax 2:18
sc_signal<int> s t; => Syntax 2:18
sc_signal<int> s, int t; => Syntax 2:19
sc_signal<int> s, t{4}; => Syntax 2:20
sc_signal<int, SC_UNCHECKED_WRITERS> s; => NotInProfile 2:14
sc_fifo<int, int> q; => Syntax 2:12
sc_clock c(\"c\", 10, SC_NS); => ok
sc_clock c(\"c\", sc_time(10, SC_NS)); => ok
sc_clock c(\"c\", SC_ZERO_TIME); => ok
sc_clock c(10, SC_NS); => Syntax 2:12
sc_clock c(\"c\", 10); => Syntax 2:19
sc_clock c(\"c\", 10, SC_NS, 1); => Syntax 2:26
sc_clock c; => Syntax 2:11
sc_clock c(\"c\", 10, SC_NS), d(\"d\", 4, SC_NS); => ok
sc_clock c(\"c\", 10, SC_NS), d; => Syntax 2:30
M m(\"m\"); => ok
M m(\"m\", 1, 2); => ok
M m(); => Syntax 2:5
M m; => Syntax 2:4
M m{\"m\"}; => Syntax 2:4
M m(\"m\"), n(\"n\", 1); => ok
M m(\"m\"), n; => Syntax 2:12
M m(\"m\"), N n(\"n\"); => Syntax 2:13
m.p(s); => ok
m.p(s), m.q(t); => Syntax 2:7
m.p.bind(s); => ok
m.notify(s); => Syntax 2:9
m.notify.bind(s); => ok
const int n = 1; => ok
static const bool b = false; => ok
int n = 1; => Syntax 2:1
sc_start(1, SC_NS); M m(\"m\"); => Syntax 2:21
sc_set_time_resolution(1, SC_PS); => NotInProfile 2:1
sc_trace(a); => NotInProfile 2:1
sc_spawn(f); => NotInProfile 2:1
new M; => NotInProfile 2:1
x = 1; => Syntax 2:3
if (1) {} => Syntax 2:1
throw 1; => NotInProfile 2:1
";

pub static STATEMENTS: &str = "
 => ok
; => ok
;; => ok
{} => ok
{ ; { } } => ok
{ => Syntax 3:4
} => Syntax 3:3
break; => ok
break => Syntax 3:1
continue; => ok
continue x; => Syntax 2:10
return; => ok
return 1; => ok
return => Syntax 3:1
return 1 2; => Syntax 2:10
if (a) ; => ok
if (a) ; else ; => ok
if (a) if (b) ; else ; else ; => ok
if (a) ; else ; else ; => Syntax 2:17
if (a) while (b) if (c) ; else ; => ok
if a ; => Syntax 2:4
if () ; => Syntax 2:5
if (a) else ; => Syntax 2:8
if (a) => Syntax 3:1
else ; => Syntax 2:1
if (int a = 1) ; => Syntax 2:9
while (a) ; => ok
while () ; => Syntax 2:8
while a ; => Syntax 2:7
while (a) => Syntax 3:1
do ; while (a); => ok
do ; while (a) => Syntax 3:1
do while (a); => Syntax 3:1
do ; ; while (a); => Syntax 2:6
do { } while (a) ; => ok
do ; until (a); => Syntax 2:6
for (;;) ; => ok
for (int i = 0; i < 9; i++) ; => ok
for (int i = 0, j = 1; i < j; ++i) { } => ok
for (i = 0; ; ) ; => ok
for (f(); a; f()) ; => ok
for (int i; ; wait()) ; => ok
for (; ; int i = 1) ; => Syntax 2:10
for (;) ; => Syntax 2:7
for (;;;) ; => Syntax 2:8
for (i; ;) ; => Syntax 2:7
for (;; i) ; => Syntax 2:10
for (;; i++, j++) ; => Syntax 2:12
switch (a) {} => NotInProfile 2:1
goto a; => NotInProfile 2:1
case 1: ; => NotInProfile 2:1
default: ; => NotInProfile 2:1
try {} => NotInProfile 2:1
throw 1; => NotInProfile 2:1
static int a; => Syntax 2:1
const int a = 1; => Syntax 2:1
delete a; => NotInProfile 2:1
this; => NotInProfile 2:1
true; => Syntax 2:1
1; => Syntax 2:1
\"a\"; => Syntax 2:1
";

pub static LOCALS: &str = "
int a; => ok
bool a = true, b; => ok
unsigned long long a = 1, b = 2, c; => ok
int a[2]; => Syntax 2:6
int a = ; => Syntax 2:9
int a b; => Syntax 2:7
int ; => Syntax 2:5
int = 1; => Syntax 2:5
int a, ; => Syntax 2:8
int a = 1 b; => Syntax 2:11
int a(1); => Syntax 2:6
int a{1}; => Syntax 2:6
a b; => Syntax 2:3
long long a = x ? 1 : 2; => ok
auto a = 1; => NotInProfile 2:1
char a; => NotInProfile 2:1
int wait; => Syntax 2:5
int bind, notify = 1, cancel; => ok
int std; => Syntax 2:8
int endl; => Syntax 2:5
int sc_core; => Syntax 2:12
";

pub static SIMPLE: &str = "
x = 1; => ok
x += 1; => ok
x -= 1; => ok
x *= 1; => ok
x /= 1; => ok
x %= 1; => ok
x &= 1; => ok
x |= 1; => ok
x ^= 1; => ok
x <<= 1; => ok
x >>= 1; => ok
x == 1; => Syntax 2:3
x = y = 1; => Syntax 2:7
x = ; => Syntax 2:5
x => Syntax 3:1
x; => Syntax 2:2
x + 1; => Syntax 2:3
x[1] = 2; => ok
x[1]++; => ok
x[] = 1; => Syntax 2:3
x[1][2] = 1; => Syntax 2:5
x[1; => Syntax 2:4
x++; => ok
x--; => ok
++x; => ok
--x; => ok
++x[1]; => ok
x++ = 1; => Syntax 2:5
++x = 1; => Syntax 2:5
++1; => Syntax 2:3
+ +x; => Syntax 2:1
x+++; => Syntax 2:4
(x) = 1; => Syntax 2:1
*x = 1; => Syntax 2:1
&x; => Syntax 2:1
f(); => ok
f(1, 2); => ok
f(1,); => Syntax 2:5
f(,1); => Syntax 2:3
f(1) => Syntax 3:1
f() = 1; => Syntax 2:5
f(1, SC_NS); => Syntax 2:6
x.f(); => ok
x.f(1); => ok
x.f(1, 2); => Syntax 2:6
x.f; => Syntax 2:4
x.f = 1; => Syntax 2:5
x.y.f(); => Syntax 2:4
x.1(); => Syntax 2:3
x.f(1, SC_NS); => Syntax 2:6
x-> f(); => Syntax 2:2
x.read() = 1; => Syntax 2:10
e.notify(); => Syntax 2:10
e.notify(1, SC_NS); => ok
e.notify(SC_ZERO_TIME); => ok
e.notify(sc_time(1, SC_NS)); => ok
e.notify(1); => Syntax 2:11
e.notify(1, 2); => Syntax 2:13
e.cancel(); => ok
e.cancel(1); => Syntax 2:10
e.bind(1); => ok
notify = 1; => ok
cancel++; => ok
bind(); => ok
e.wait(); => Syntax 2:3
e.int(); => Syntax 2:3
sc_stop(); => ok
sc_stop(1); => Syntax 2:9
sc_stop; => Syntax 2:8
";

pub static WAITS: &str = "
wait(); => ok
wait(1, SC_NS); => ok
wait(1 + 2, SC_US); => ok
wait(SC_ZERO_TIME); => ok
wait(sc_time(1, SC_MS)); => ok
wait(e); => ok
wait(e | f); => ok
wait(e | f | g.posedge_event()); => ok
wait(x.y()); => ok
wait(1, SC_NS, e); => ok
wait(1, SC_NS, e | f); => ok
wait(SC_ZERO_TIME, e); => ok
wait(sc_time(1, SC_SEC), e); => ok
wait(e, f); => Syntax 2:9
wait(1); => Syntax 2:7
wait(a + b); => Syntax 2:11
wait((a)); => Syntax 2:9
wait((a), SC_NS); => ok
wait(a | b, SC_NS); => ok
wait(a | b, SC_NS, c); => ok
wait(a | 1); => Syntax 2:11
wait(a || b); => Syntax 2:12
wait(a & b); => Syntax 2:11
wait(a.b(1)); => Syntax 2:12
wait(a.b(1), SC_PS); => ok
wait(a[1]); => Syntax 2:10
wait(f()); => Syntax 2:9
wait(f(), SC_NS); => ok
wait(e |); => Syntax 2:9
wait(| e); => Syntax 2:6
wait(1, SC_NS e); => Syntax 2:15
wait(1, SC_NS,); => Syntax 2:15
wait(1, SC_NS, 1); => Syntax 2:16
wait(1, SC_NS, (e)); => Syntax 2:16
wait(1, SC_NS, e f); => Syntax 2:18
wait(1, SC_FS); => NotInProfile 2:9
wait(1, ns); => Syntax 2:9
wait(a.notify()); => Syntax 2:8
wait(e.pos); => Syntax 2:11
wait(,); => Syntax 2:6
wait; => Syntax 2:5
wait(SC_NS); => Syntax 2:6
wait(sc_time(1)); => Syntax 2:15
wait(sc_time(1, 2)); => Syntax 2:17
wait(\"a\"); => Syntax 2:6
wait(true); => Syntax 2:10
wait(a ? b : c, SC_NS); => ok
wait(a ? b : c); => Syntax 2:15
wait(e) = 1; => Syntax 2:9
next_trigger(); => ok
next_trigger(e); => ok
next_trigger(1, SC_NS, e | f); => ok
next_trigger(1); => Syntax 2:15
next_trigger; => Syntax 2:13
";

pub static PRINTS: &str = "
cout << 1; => ok
cout << \"a\" << x << endl; => ok
cout << sc_time_stamp() << endl; => ok
cout << a + b; => ok
cout << (a << b); => ok
cout << a < b; => Syntax 2:11
cout << (a < b); => ok
cout << a & b; => Syntax 2:11
cout << a ? b : c; => Syntax 2:11
cout << -a * b; => ok
cout; => Syntax 2:5
cout << ; => Syntax 2:9
cout 1; => Syntax 2:6
cout << endl endl; => Syntax 2:14
cout << 1 <<; => Syntax 2:13
cout >> 1; => Syntax 2:6
cout << sc_time_stamp; => Syntax 2:22
cout << sc_time_stamp(1); => Syntax 2:23
cout << sc_time_stamp() + 1; => Syntax 2:25
cout << \"a\" + 1; => Syntax 2:13
cout << \"a\" \"b\"; => Syntax 2:13
cout << endl + 1; => Syntax 2:14
cout << SC_ZERO_TIME; => Syntax 2:9
std::cout << 1 << std::endl; => ok
std::cout << std::cout; => Syntax 2:19
cout << wait(); => Syntax 2:9
cout = 1; => Syntax 2:6
cin >> a; => Syntax 2:5
";

pub static OPERATORS: &str = "
1 => ok
a => ok
a || b => ok
a && b => ok
a | b => ok
a ^ b => ok
a & b => ok
a == b => ok
a != b => ok
a < b => ok
a <= b => ok
a > b => ok
a >= b => ok
a << b => ok
a >> b => ok
a + b => ok
a - b => ok
a * b => ok
a / b => ok
a % b => ok
a ? b : c => ok
a ? b : c ? d : e => ok
a ? b ? c : d : e => ok
a ? b => Syntax 3:1
a ? : c => Syntax 2:5
a ? b :  => Syntax 3:1
a : b => Syntax 2:3
!a => ok
~a => ok
-a => ok
+a => ok
- - a => ok
!~-+a => ok
- => Syntax 3:1
a - => Syntax 3:1
a - - b => ok
a + * b => Syntax 2:5
* a => Syntax 2:1
& a => Syntax 2:1
a ! b => Syntax 2:3
a ~ b => Syntax 2:3
a = b => Syntax 2:3
a == = b => Syntax 2:6
a << << b => Syntax 2:6
a <> b => Syntax 2:4
a b => Syntax 2:3
1 2 => Syntax 2:3
a && && b => Syntax 2:6
a , b => Syntax 2:3
a += 1 => Syntax 2:3
a++ => Syntax 2:2
++a => Syntax 2:1
a-- => Syntax 2:2
a -- b => Syntax 2:3
a.b => Syntax 3:1
a - > b => Syntax 2:5
a::b => Syntax 2:2
::a => Syntax 2:1
a ? b , c : d => Syntax 2:7
";

pub static PRIMARIES: &str = "
0 => ok
0x1F => ok
1ull => ok
true => ok
false => ok
true false => Syntax 2:6
a[1] => ok
a[a[1]] => ok
a[] => Syntax 2:3
a[1 => Syntax 3:1
a[1]] => Syntax 2:5
a[1][2] => Syntax 2:5
a[1, 2] => Syntax 2:4
(a) => ok
((a)) => ok
() => Syntax 2:2
(a => Syntax 3:1
a) => Syntax 2:2
(a)) => Syntax 2:4
(a, b) => Syntax 2:3
f() => ok
f(1) => ok
f(1, 2) => ok
f(1,) => Syntax 2:5
f(,) => Syntax 2:3
f(1 2) => Syntax 2:5
f( => Syntax 3:1
f()() => Syntax 2:4
f()[1] => Syntax 2:4
a.read() => ok
a.b(1) => ok
a.b() => ok
a.b(1, 2) => Syntax 2:6
a.b => Syntax 3:1
a.b.c() => Syntax 2:4
a.b[1] => Syntax 2:4
a.notify() => Syntax 2:3
a.cancel() => Syntax 2:3
a.bind() => ok
a.1 => Syntax 2:3
1.a => Syntax 2:2
1(2) => Syntax 2:2
1[2] => Syntax 2:2
true() => Syntax 2:5
notify => ok
cancel(bind) => ok
\"a\" => Syntax 2:1
endl => Syntax 2:1
wait() => Syntax 2:1
sc_time_stamp() => Syntax 2:1
SC_NS => Syntax 2:1
this => NotInProfile 2:1
new a => NotInProfile 2:1
sizeof(a) => NotInProfile 2:1
static_cast<int>(a) => NotInProfile 2:1
nullptr => ok
sc_stop() => Syntax 2:1
operator+ => NotInProfile 2:1
";

pub static CASTS: &str = "
(int) a => ok
(bool) a => ok
(unsigned) a => ok
(unsigned int) a => ok
(long long) a => ok
(long long int) a => ok
(unsigned long long) a => ok
(unsigned long long int) a => ok
(int) (bool) a => ok
(int) -a => ok
-(int) a => ok
(int) a + b => ok
((int) a) => ok
(int) => Syntax 3:1
(int => Syntax 3:1
(int) ) => Syntax 2:7
(long) a => Syntax 2:6
(unsigned long) a => Syntax 2:15
(int int) a => Syntax 2:6
(int long) a => Syntax 2:6
(double) a => NotInProfile 2:2
(char) a => NotInProfile 2:2
(x) a => Syntax 2:5
(void) a => Syntax 2:2
(const int) a => Syntax 2:2
(int*) a => Syntax 2:5
(int, a) => Syntax 2:5
(int + a) => Syntax 2:6
(int[1]) => Syntax 2:5
int(a) => ok
bool(a) => ok
unsigned(a) => ok
long long(a) => Syntax 2:1
unsigned int(a) => Syntax 2:10
long(a) => Syntax 2:1
int() => Syntax 2:5
int(a => Syntax 3:1
int(a, b) => Syntax 2:6
int a => Syntax 2:5
int => Syntax 3:1
int(a) + b => ok
(int(a)) => ok
(int(a) + b) => ok
(int(a) + b) * c => ok
(int(a), b) => Syntax 2:8
(int(a) b) => Syntax 2:9
(int(int) a) => Syntax 2:9
(int)(a) => ok
(int)(a) + (b) => ok
(unsigned(a)) => ok
(unsigned int(a)) => Syntax 2:14
(bool(a) ? b : c) => ok
double(a) => NotInProfile 2:1
sc_int(a) => NotInProfile 2:1
(std::int) a => ok
std::int(a) => ok
";

pub static PAIRS: &str = "
std::a => ok
sc_core::a => ok
std::std::a => ok
std::sc_core::std::a => ok
std::1 => Syntax 2:6
std:: => Syntax 3:1
std => Syntax 3:1
std a => Syntax 2:5
std + a => Syntax 2:5
std::; => Syntax 2:6
std::std => Syntax 3:1
a std::b => Syntax 2:3
a std => Syntax 2:3
a + std => Syntax 3:1
a + std:: => Syntax 3:1
std::a::b => Syntax 2:7
sc_dt::a => Syntax 2:1
a.std::read() => ok
a.std => Syntax 3:1
std::int(a) => ok
std::notify => ok
std::SC_NS => Syntax 2:6
std::if => Syntax 2:6
(std => Syntax 3:1
(std:: => Syntax 3:1
std::std::1 => Syntax 2:11
sc_core => Syntax 3:1
";

pub static PAIRED_FILES: &str = "
std::int std::sc_main(std::int, std::char*[]) {} => ok
using namespace std::std; int sc_main(int argc, char* argv[]) {} => ok
using namespace std::sc_core; int sc_main(int argc, char* argv[]) {} => ok
using namespace std::x; int sc_main(int argc, char* argv[]) {} => Syntax 1:22
using namespace std::; int sc_main(int argc, char* argv[]) {} => Syntax 1:22
using namespace std => Syntax 1:20
using namespace std:: => Syntax 1:22
using std => Syntax 1:10
using std:: => Syntax 1:12
using std::namespace std; int sc_main(int argc, char* argv[]) {} => ok
std => Syntax 1:4
std:: => Syntax 1:6
std::std => Syntax 1:9
std 1 => Syntax 1:5
std :: 1 => Syntax 1:8
std :: x => Syntax 1:8
sc_core::SC_MODULE(M) { std::sc_signal<int, 1> s; }; => NotInProfile 1:43
SC_MODULE std => Syntax 1:11
SC_MODULE(std) {} => Syntax 1:14
SC_MODULE(std::M) {}; int sc_main(int argc, char* argv[]) {} => ok
SC_MODULE(M) { sc_core::sc_in<bool> a; sc_core::sc_event e; }; int sc_main(int argc, char* argv[]) {} => ok
SC_MODULE(M) { std::double x; }; => NotInProfile 1:21
SC_MODULE(M) { std double x; }; => NotInProfile 1:20
const std::int n = std::x; int sc_main(int argc, char* argv[]) {} => ok
int sc_main(int argc, char* argv[]) {} std => Syntax 1:40
int sc_main(int argc, char* argv[]) {} std::x => Syntax 1:40
";

/// The words of C++ and SystemC that the grammar hasn't, or hasn't everywhere.
pub static OUTSIDE: &str = "
SC_CTHREAD
SC_FS
SC_MANY_WRITERS
SC_UNCHECKED_WRITERS
auto
case
char
class
default
delete
double
enum
explicit
float
friend
goto
namespace
new
operator
private
protected
sc_bigint
sc_biguint
sc_bit
sc_bv
sc_event_queue
sc_export
sc_fixed
sc_int
sc_interface
sc_logic
sc_lv
sc_mutex
sc_port
sc_semaphore
sc_set_time_resolution
sc_spawn
sc_trace
sc_ufixed
sc_uint
sc_vector
short
signed
sizeof
static_cast
struct
switch
template
this
throw
try
typedef
union
virtual
volatile
";
