//! Texts with near misses, and what elaboration refuses of them, worked out from the language's description: one a line.
//! What is wanted is `ok`, or a name with line, column and the full names.

/// Members of a module `M`, of which there is the instance `m`.
pub static MEMBERS: &str = "
const int n = 1 / 0; => BadConstant 2:15 m.n
static const int n = 1 / 0; => BadConstant 2:22 m.n
const int a = 1, b = 1 % 0; => BadConstant 2:22 m.b
int x = 2147483647 + 1; => BadConstant 2:9 m.x
int x = 1, y = 1 << 32; => BadConstant 2:16 m.y
int x = -(-2147483647 - 1); => BadConstant 2:9 m.x
int x = (1 / 0); => BadConstant 2:9 m.x
int x = true || 1 / 0; => ok
int x = false ? 1 / 0 : 2; => ok
unsigned x = 4294967295u + 1u; => ok
int x[0]; => BadConstant 2:7 m.x
int x[-1]; => BadConstant 2:7 m.x
int x[false]; => BadConstant 2:7 m.x
int x[1u - 1u]; => BadConstant 2:7 m.x
int x[1 / 0]; => BadConstant 2:7 m.x
int x, y[0]; => BadConstant 2:10 m.y
const int x[0]; => BadConstant 2:13 m.x
const int x[-1]; => BadConstant 2:13 m.x
int x[1]; => ok
int x[true]; => ok
const int x[1]; => ok
int x[0u - 1u]; => TooManyCells 2:5 m.x
int x[9223372036854775807ll]; => TooManyCells 2:5 m.x
int x[-9223372036854775807ll]; => BadConstant 2:7 m.x
int x[18446744073709551615ull]; => TooManyCells 2:5 m.x
int x[1048576]; => ok
int x[1048577]; => TooManyCells 2:5 m.x
int x[1048576], y; => TooManyCells 2:17 m.y
int x[1048576]; bool y[1]; => TooManyCells 2:22 m.y
const int x[1048576]; int y; => TooManyCells 2:27 m.y
int x, y; int z[1048575]; => TooManyCells 2:15 m.z
int x, y; int z[1048574]; => ok
int x[1048576]; const int y = 1; sc_event e; sc_signal<int> s; sc_fifo<int> q; => ok
sc_fifo<int> q{0}; => FifoSize 2:14 m.q
sc_fifo<int> q{-1}; => FifoSize 2:14 m.q
sc_fifo<int> q{65537}; => FifoSize 2:14 m.q
sc_fifo<int> q{false}; => FifoSize 2:14 m.q
sc_fifo<int> q{4294967297ll}; => FifoSize 2:14 m.q
sc_fifo<int> q{18446744073709551615ull}; => FifoSize 2:14 m.q
sc_fifo<int> q{0u - 1u}; => FifoSize 2:14 m.q
sc_fifo<int> q{\"q\", 0}; => FifoSize 2:14 m.q
sc_fifo<int> a{1}, b{0}; => FifoSize 2:20 m.b
sc_fifo<int> q{1 / 0}; => BadConstant 2:16 m.q
sc_fifo<int> q{\"q\", 1 / 0}; => BadConstant 2:21 m.q
sc_fifo<int> q; => ok
sc_fifo<int> q{\"q\"}; => ok
sc_fifo<int> q{1}; => ok
sc_fifo<int> q{true}; => ok
sc_fifo<int> q{65536}; => ok
sc_fifo<int> q{\"q\", 65536ull}; => ok
";

/// Members of a module `M` with a constructor.
pub static CONSTRUCTORS: &str = "
int x; SC_CTOR(M) : x(1 / 0) {} => BadConstant 2:23 m.x
const int n; SC_CTOR(M) : n(1 / 0) {} => BadConstant 2:29 m.n
int x = 1 / 0; SC_CTOR(M) : x(1) {} => BadConstant 2:9 m.x
int x = 1 / 0; SC_CTOR(M) : x(1 % 0) {} => BadConstant 2:9 m.x
int x = 1 / 0; SC_CTOR(M) { x = 1; } => BadConstant 2:9 m.x
int x; SC_CTOR(M) : x(1 / 0) { x = 1; } => BadConstant 2:23 m.x
int x; SC_CTOR(M) { x = 1 / 0; } => BadConstant 2:25 m.x
int x; SC_CTOR(M) { x = 1 / 0; x = 1; } => BadConstant 2:25 m.x
int x; SC_CTOR(M) : x(2), x(1 / 0) {} => BadConstant 2:29 m.x
sc_fifo<int> q; SC_CTOR(M) : q(0) {} => FifoSize 2:14 m.q
sc_fifo<int> q; SC_CTOR(M) : q(65537) {} => FifoSize 2:14 m.q
sc_fifo<int> q; SC_CTOR(M) : q(\"q\", 0) {} => FifoSize 2:14 m.q
sc_fifo<int> q{1}; SC_CTOR(M) : q(0) {} => FifoSize 2:14 m.q
sc_fifo<int> q; SC_CTOR(M) : q(1 / 0) {} => BadConstant 2:32 m.q
sc_fifo<int> q{1 / 0}; SC_CTOR(M) : q(1) {} => BadConstant 2:16 m.q
sc_fifo<int> q{0}; SC_CTOR(M) : q(1 / 0) {} => BadConstant 2:35 m.q
sc_fifo<int> q{0}; SC_CTOR(M) : q(1) {} => ok
sc_fifo<int> q; SC_CTOR(M) : q(1) {} => ok
sc_fifo<int> q; SC_CTOR(M) : q(65536) {} => ok
sc_fifo<int> q{2}; SC_CTOR(M) : q(\"q\") {} => ok
int x; SC_CTOR(M) : x(1), x(2) {} => ok
int a; sc_fifo<int> q; SC_CTOR(M) : q(0), a(1 / 0) {} int b = 1 / 0; => BadConstant 2:45 m.a
int a; sc_fifo<int> q; SC_CTOR(M) : q(0) { a = 1 / 0; } => FifoSize 2:21 m.q
int a; SC_CTOR(M) { a = 1 / 0; SC_THREAD(run); } void run() { wait(-1, SC_NS); } => BadConstant 2:25 m.a
int a; SC_CTOR(M) { SC_THREAD(run); a = 1 / 0; } void run() { wait(-1, SC_NS); } => BadConstant 2:68 m.run
";

/// A const member in another's size, by where each is declared.
pub static SIZES: &str = "
const int n = 0; int x[n]; => BadConstant 2:24 m.x
const int n = 3; int x[n]; => ok
const int n = 3; int x[n - 2]; => ok
const int n = 3; int x[n - 3]; => BadConstant 2:24 m.x
int x[n]; const int n = 3; => BadConstant 2:7 m.x
int x[n]; static const int n = 3; => ok
int x[n]; static const int n = 0; => BadConstant 2:7 m.x
sc_fifo<int> q{n}; const int n = 4; => FifoSize 2:14 m.q
sc_fifo<int> q{n}; static const int n = 4; => ok
const int n = 4; sc_fifo<int> q{n}; => ok
const int n = 65536; sc_fifo<int> q{n}; => ok
const int n = 65536; sc_fifo<int> q{n + 1}; => FifoSize 2:35 m.q
const int n; int x[n]; SC_CTOR(M) : n(3) {} => ok
const int n = 3; int x[n]; SC_CTOR(M) : n(0) {} => BadConstant 2:24 m.x
const int n; int x[n]; => BadConstant 2:20 m.x
const int n = 1; static const int s = n; int x[s]; => BadConstant 2:48 m.x
static const int n = 1; static const int s = n; int x[s]; => ok
static const int s = n; static const int n = 1; int x[s]; => BadConstant 2:55 m.x
static const int s = n; const int n = 1; int x[s]; => BadConstant 2:48 m.x
static const int n = 1; const int s = n; int x[s]; => ok
const int s = n; static const int n = 1; int x[s]; => ok
const int s = n; const int n = 1; int x[s]; => BadConstant 2:41 m.x
const int n = 1; const int s = n; int x[s]; => ok
const int n = 1, s = n; int x[s]; => ok
const int n = 1 / z, z = 1; => BadConstant 2:15 m.n
const int n = 1 / z; const int z = 1; => BadConstant 2:15 m.n
const int n = 1 / z; static const int z = 1; => ok
static const int n = 1 / z; static const int z = 1; => BadConstant 2:22 m.n
static const int z = 1; static const int n = 1 / z; => ok
const int z = 1; static const int n = 1 / z; => BadConstant 2:39 m.n
sc_fifo<int> q; const int n = 1; SC_CTOR(M) : q(n) {} => FifoSize 2:14 m.q
sc_fifo<int> q; static const int n = 1; SC_CTOR(M) : q(n) {} => ok
const int n = 1; sc_fifo<int> q; SC_CTOR(M) : q(n) {} => ok
const int n; sc_fifo<int> q; SC_CTOR(M) : q(n) {} => FifoSize 2:27 m.q
int x; SC_CTOR(M) : x(1 / n) {} const int n = 1; => BadConstant 2:23 m.x
const int n = 1; int x; SC_CTOR(M) : x(1 / n) {} => ok
int x; SC_CTOR(M) { x = 1 / n; } const int n = 1; => ok
int x; SC_CTOR(M) { x = 1 / n; } const int n = 0; => BadConstant 2:25 m.x
SC_CTOR(M) { SC_THREAD(run); } void run() { wait(n, SC_NS); } const int n = -1; => BadConstant 2:50 m.run
SC_CTOR(M) { SC_THREAD(run); } void run() { wait(1 / n, SC_NS); } const int n = 1; => ok
SC_CTOR(M) { SC_THREAD(run); } void run() { wait(1 / n, SC_NS); } const int n = 0; => BadConstant 2:50 m.run
const bool n = 7; int x[n]; sc_fifo<int> q{65535 + n}; => ok
const bool n = 7; sc_fifo<int> q{65536 + n}; => FifoSize 2:32 m.q
const unsigned n = -1; int x[n]; => TooManyCells 2:28 m.x
const int n = 4294967296ll; int x[n]; => BadConstant 2:35 m.x
const int n = 4294967297ll; int x[1048576 / n]; => ok
const unsigned n = 0; int x[n + 1 - 1]; => BadConstant 2:29 m.x
";

/// Whole texts on constructor parameters.
pub static PARAMETERS: &str = "
SC_MODULE(K) { const int a; sc_fifo<int> f; K(sc_module_name n, int p, bool b) : sc_module(n), a(p), f(10 / p + b) {} }; int sc_main(int, char*[]) { K k(\"k\", 1 / 0, true); } => BadConstant 1:159 k
SC_MODULE(K) { const int a; sc_fifo<int> f; K(sc_module_name n, int p, bool b) : sc_module(n), a(p), f(10 / p + b) {} }; int sc_main(int, char*[]) { K k(\"k\", 1, 1 % 0); } => BadConstant 1:162 k
SC_MODULE(K) { const int a; sc_fifo<int> f; K(sc_module_name n, int p, bool b) : sc_module(n), a(p), f(10 / p + b) {} }; int sc_main(int, char*[]) { K k(\"k\", 1 % 0, 1 / 0); } => BadConstant 1:159 k
SC_MODULE(K) { const int a; sc_fifo<int> f; K(sc_module_name n, int p, bool b) : sc_module(n), a(p), f(10 / p + b) {} }; int sc_main(int, char*[]) { K k(\"k\", 0, true); } => BadConstant 1:104 k.f
SC_MODULE(K) { const int a; sc_fifo<int> f; K(sc_module_name n, int p, bool b) : sc_module(n), a(p), f(10 / p + b) {} }; int sc_main(int, char*[]) { K k(\"k\", 11, false); } => FifoSize 1:42 k.f
SC_MODULE(K) { const int a; sc_fifo<int> f; K(sc_module_name n, int p, bool b) : sc_module(n), a(p), f(10 / p + b) {} }; int sc_main(int, char*[]) { K k(\"k\", 11, 256); } => ok
SC_MODULE(K) { const int a; sc_fifo<int> f; K(sc_module_name n, int p, bool b) : sc_module(n), a(p), f(10 / p + b) {} }; int sc_main(int, char*[]) { K k(\"k\", 10, 0); } => ok
SC_MODULE(K) { const int a; sc_fifo<int> f; K(sc_module_name n, int p, bool b) : sc_module(n), a(p), f(10 / p + b) {} }; int sc_main(int, char*[]) { K k(\"k\", 10, 0); K l(\"l\", 11, 0); } => FifoSize 1:42 l.f
SC_MODULE(K) { const int a; sc_fifo<int> f; K(sc_module_name n, int p, bool b) : sc_module(n), a(p), f(10 / p + b) {} }; SC_MODULE(M) { K k{\"k\", 1 / 0, true}; }; int sc_main(int, char*[]) { M m(\"m\"); } => BadConstant 1:146 m.k
SC_MODULE(K) { const int a; sc_fifo<int> f; K(sc_module_name n, int p, bool b) : sc_module(n), a(p), f(10 / p + b) {} }; SC_MODULE(M) { K k; SC_CTOR(M) : k(\"k\", 1, 1 / 0) {} }; int sc_main(int, char*[]) { M m(\"m\"); } => BadConstant 1:165 m.k
SC_MODULE(K) { const int a; sc_fifo<int> f; K(sc_module_name n, int p, bool b) : sc_module(n), a(p), f(10 / p + b) {} }; SC_MODULE(M) { K k{\"k\", 1 / 0, true}; SC_CTOR(M) : k(\"k\", 1, true) {} }; int sc_main(int, char*[]) { M m(\"m\"); } => BadConstant 1:146 m.k
SC_MODULE(K) { const int a; sc_fifo<int> f; K(sc_module_name n, int p, bool b) : sc_module(n), a(p), f(10 / p + b) {} }; SC_MODULE(M) { K k{\"k\", n, true}; const int n = 5; }; int sc_main(int, char*[]) { M m(\"m\"); } => BadConstant 1:104 m.k.f
SC_MODULE(K) { const int a; sc_fifo<int> f; K(sc_module_name n, int p, bool b) : sc_module(n), a(p), f(10 / p + b) {} }; SC_MODULE(M) { const int n = 5; K k{\"k\", n, true}; }; int sc_main(int, char*[]) { M m(\"m\"); } => ok
SC_MODULE(K) { const int a; sc_fifo<int> f; K(sc_module_name n, int p, bool b) : sc_module(n), a(p), f(10 / p + b) {} }; SC_MODULE(M) { K k{\"k\", n, true}; static const int n = 5; }; int sc_main(int, char*[]) { M m(\"m\"); } => ok
SC_MODULE(K) { const int a; sc_fifo<int> f; K(sc_module_name n, int p, bool b) : sc_module(n), a(p), f(10 / p + b) {} }; SC_MODULE(M) { K k{\"k\", 0, true}; SC_CTOR(M) : k(\"k\", 5, true) {} }; int sc_main(int, char*[]) { M m(\"m\"); } => ok
SC_MODULE(K) { const int a; sc_fifo<int> f; K(sc_module_name n, int p, bool b) : sc_module(n), a(p), f(10 / p + b) {} }; SC_MODULE(M) { K k; M(sc_module_name n, int z) : sc_module(n), k(\"k\", z * 11, z - 1) {} }; int sc_main(int, char*[]) { M m(\"m\", 1); } => FifoSize 1:42 m.k.f
SC_MODULE(K) { const int a; sc_fifo<int> f; K(sc_module_name n, int p, bool b) : sc_module(n), a(p), f(10 / p + b) {} }; SC_MODULE(M) { K k; M(sc_module_name n, int z) : sc_module(n), k(\"k\", z * 11, z - 1) {} }; int sc_main(int, char*[]) { M m(\"m\", 2); } => ok
SC_MODULE(M) { int x; M(sc_module_name n, int z) : sc_module(n) { x = 1 / z; } }; int sc_main(int, char*[]) { M a(\"a\", 1); M b(\"b\", 0); } => BadConstant 1:71 b.x
SC_MODULE(K) { const int a; sc_fifo<int> f; K(sc_module_name n, int p, bool b) : sc_module(n), a(p), f(10 / p + b) {} }; SC_MODULE(M) { int x = 1 / 0; K k; M(sc_module_name n, int z) : sc_module(n), k(\"k\", z, z) {} }; int sc_main(int, char*[]) { M m(\"m\", 1 / 0); } => BadConstant 1:256 m
SC_MODULE(K) { const int a; sc_fifo<int> f; K(sc_module_name n, int p, bool b) : sc_module(n), a(p), f(10 / p + b) {} }; SC_MODULE(M) { int x = 1 / 0; K k; M(sc_module_name n, int z) : sc_module(n), k(\"k\", 1 / z, z) {} }; int sc_main(int, char*[]) { M m(\"m\", 0); } => BadConstant 1:145 m.x
";

/// Whole texts on constants of the file, and on instances.
pub static FILES: &str = "
const int n = 1 / 0; int sc_main(int, char*[]) {} => BadConstant 1:15 n
static const int n = 1 / 0; int sc_main(int, char*[]) {} => BadConstant 1:22 n
const int n = 0; const int z = 1 / n; int sc_main(int, char*[]) {} => BadConstant 1:32 z
const int n = 1; const int z = 1 / n; int sc_main(int, char*[]) {} => ok
const int n = 0; SC_MODULE(M) { int x[n]; }; int sc_main(int, char*[]) { M m(\"m\"); } => BadConstant 1:39 m.x
SC_MODULE(M) { int x[0]; }; int sc_main(int, char*[]) {} => ok
SC_MODULE(M) { int x[0]; }; const int n = 1 / 0; int sc_main(int, char*[]) { M m(\"m\"); } => BadConstant 1:43 n
SC_MODULE(A) { int x = 1 / 0; }; SC_MODULE(B) { int y = 1 / 0; A a; }; SC_MODULE(C) { A a; B b; }; int sc_main(int, char*[]) { C c(\"c\"); } => BadConstant 1:24 c.a.x
SC_MODULE(A) { int x = 1 / 0; }; SC_MODULE(B) { int y = 1 / 0; A a; }; SC_MODULE(C) { B b; A a; }; int sc_main(int, char*[]) { C c(\"c\"); } => BadConstant 1:57 c.b.y
SC_MODULE(A) { int x = 1 / 0; }; SC_MODULE(B) { A a; int y = 1 / 0; }; SC_MODULE(C) { B b; A a; }; int sc_main(int, char*[]) { C c(\"c\"); } => BadConstant 1:24 c.b.a.x
SC_MODULE(A) { void run() { wait(-1, SC_NS); } SC_CTOR(A) { SC_THREAD(run); } }; SC_MODULE(B) { void go() { wait(-1, SC_NS); } SC_CTOR(B) { SC_THREAD(go); } A a; }; int sc_main(int, char*[]) { B b(\"b\"); } => BadConstant 1:34 b.a.run
SC_MODULE(B) { void go() { wait(-1, SC_NS); } SC_CTOR(B) { SC_THREAD(go); } int x[0]; }; int sc_main(int, char*[]) { B b(\"b\"); } => BadConstant 1:83 b.x
int sc_main(int, char*[]) { const int n = 1 / 0; } => BadConstant 1:43 n
const int n = 1; int sc_main(int, char*[]) { const int n = 0; sc_fifo<int> q(n); } => FifoSize 1:76 q
const int n = 0; int sc_main(int, char*[]) { const int n = 1; sc_fifo<int> q(n); } => ok
";

/// Declarations of `sc_main`.
pub static MAINS: &str = "
sc_fifo<int> q(1 / 0); => BadConstant 2:16 q
sc_fifo<int> q(\"q\", 1 / 0); => BadConstant 2:21 q
sc_fifo<int> q(0); => FifoSize 2:14 q
sc_fifo<int> q(-1); => FifoSize 2:14 q
sc_fifo<int> q(65537); => FifoSize 2:14 q
sc_fifo<int> q(\"q\", 0); => FifoSize 2:14 q
sc_fifo<int> q(1); sc_fifo<int> r(\"r\", 65536); sc_fifo<int> t; sc_fifo<int> u(\"u\"); => ok
const int n = 0; sc_fifo<int> q(n); => FifoSize 2:31 q
const int n = 1; const int z = n % (n - 1); => BadConstant 2:32 z
sc_clock c(\"c\", 0, SC_NS); => OddClock 2:10 c
sc_clock c(\"c\", SC_ZERO_TIME); => OddClock 2:10 c
sc_clock c(\"c\", sc_time(0, SC_SEC)); => OddClock 2:10 c
sc_clock c(\"c\", 1, SC_PS); => OddClock 2:10 c
sc_clock c(\"c\", sc_time(3, SC_PS)); => OddClock 2:10 c
sc_clock c(\"c\", true, SC_PS); => OddClock 2:10 c
const int n = 5; sc_clock c(\"c\", n, SC_PS); => OddClock 2:27 c
const int n = 5; sc_clock c(\"c\", n + 1, SC_PS); => ok
const int n = 5; sc_clock c(\"c\", n, SC_NS); => ok
sc_clock c(\"c\", 2, SC_PS); sc_clock d(\"d\", sc_time(1, SC_US)); => ok
sc_clock c(\"c\", -2, SC_PS); => BadConstant 2:17 c
sc_clock c(\"c\", sc_time(-2, SC_PS)); => BadConstant 2:25 c
sc_clock c(\"c\", 1 / 0, SC_PS); => BadConstant 2:17 c
sc_clock c(\"c\", sc_time(1 / 0, SC_PS)); => BadConstant 2:25 c
sc_clock c(\"c\", 4611686018427387902, SC_PS); => ok
sc_clock c(\"c\", 4611686018427387903, SC_PS); => OddClock 2:10 c
sc_clock c(\"c\", 4611686018427387904, SC_PS); => TimeTooLarge 2:17 c
sc_clock c(\"c\", 18446744073709551615ull, SC_PS); => TimeTooLarge 2:17 c
sc_clock c(\"c\", 4611686018427387, SC_NS); => ok
sc_clock c(\"c\", 4611686018427388, SC_NS); => TimeTooLarge 2:17 c
sc_clock c(\"c\", 4611686, SC_SEC); => ok
sc_clock c(\"c\", sc_time(4611687, SC_SEC)); => TimeTooLarge 2:25 c
sc_clock c(\"c\", 18446744073709551615ull, SC_SEC); => TimeTooLarge 2:17 c
sc_start(); => ok
sc_start(1, SC_PS); => ok
sc_start(sc_time(1, SC_PS)); => ok
sc_start(0, SC_NS); => BadConstant 2:10 sc_start
sc_start(sc_time(0, SC_NS)); => BadConstant 2:18 sc_start
sc_start(SC_ZERO_TIME); => BadConstant 2:10 sc_start
sc_start(-1, SC_NS); => BadConstant 2:10 sc_start
sc_start(1 / 0, SC_NS); => BadConstant 2:10 sc_start
sc_start(sc_time(1 / 0, SC_NS)); => BadConstant 2:18 sc_start
const int n = 0; sc_start(n, SC_NS); => BadConstant 2:27 sc_start
sc_start(4611686018427387903, SC_PS); => ok
sc_start(4611686018427387904, SC_PS); => TimeTooLarge 2:10 sc_start
sc_start(4611686018, SC_MS); => ok
sc_start(4611686019, SC_MS); => TimeTooLarge 2:10 sc_start
sc_start(4611686018427, SC_US); => ok
sc_start(4611686018428, SC_US); => TimeTooLarge 2:10 sc_start
sc_start(sc_time(4611687, SC_SEC)); => TimeTooLarge 2:18 sc_start
sc_clock c(\"c\", 1, SC_PS); sc_fifo<int> q(0); sc_start(0, SC_NS); => OddClock 2:10 c
sc_fifo<int> q(0); sc_clock c(\"c\", 1, SC_PS); sc_start(0, SC_NS); => FifoSize 2:14 q
sc_clock c(\"c\", 2, SC_PS); sc_fifo<int> q(1); sc_start(0, SC_NS); => BadConstant 2:56 sc_start
";

/// Statements of a thread `run` of `m`, in which `gap` is -1 and `far` is 4611687; no process calls `none`, whose time is bad.
pub static TIMES: &str = "
wait(-1, SC_NS); => BadConstant 2:6 m.run
wait(sc_time(-1, SC_NS)); => BadConstant 2:14 m.run
wait(1 / 0, SC_NS); => BadConstant 2:6 m.run
wait(2147483647 + 1, SC_PS); => BadConstant 2:6 m.run
wait(gap, SC_NS); => BadConstant 2:6 m.run
wait((gap), SC_NS); => BadConstant 2:6 m.run
wait(far, SC_SEC); => TimeTooLarge 2:6 m.run
wait(4611687, SC_SEC); => TimeTooLarge 2:6 m.run
wait(sc_time(4611687, SC_SEC)); => TimeTooLarge 2:14 m.run
wait(4611686, SC_SEC); => ok
wait(far, SC_MS); => ok
wait(0, SC_NS); wait(SC_ZERO_TIME); wait(sc_time(0, SC_PS)); wait(gap + 1, SC_NS); => ok
int v = -1; wait(v, SC_NS); wait(x, SC_SEC); wait(x - 1, SC_NS); wait(gap * x, SC_NS); => ok
int v = -1; wait(v / 0, SC_NS); cout << 1 / 0; x = 1 / 0; => ok
wait(-1, SC_NS, e); => BadConstant 2:6 m.run
wait(sc_time(4611687, SC_SEC), e); => TimeTooLarge 2:14 m.run
e.notify(-1, SC_NS); => BadConstant 2:10 m.run
e.notify(sc_time(-1, SC_NS)); => BadConstant 2:18 m.run
e.notify(4611687, SC_SEC); => TimeTooLarge 2:10 m.run
e.notify(4611686, SC_SEC); e.notify(SC_ZERO_TIME); => ok
if (x == 1) wait(-1, SC_NS); => BadConstant 2:18 m.run
if (x == 1) ; else wait(-1, SC_NS); => BadConstant 2:25 m.run
if (x == 1) { int v = 1; wait(-1, SC_NS); } => BadConstant 2:31 m.run
while (false) wait(-1, SC_NS); => BadConstant 2:20 m.run
do wait(-1, SC_NS); while (false); => BadConstant 2:9 m.run
for (; ; ) wait(-1, SC_NS); => BadConstant 2:17 m.run
for (wait(-1, SC_NS); ; ) ; => BadConstant 2:11 m.run
for (; ; wait(-1, SC_NS)) ; => BadConstant 2:15 m.run
for (; ; wait(-1, SC_NS)) wait(4611687, SC_SEC); => BadConstant 2:15 m.run
for (wait(4611687, SC_SEC); ; wait(-1, SC_NS)) ; => TimeTooLarge 2:11 m.run
{ { wait(-1, SC_NS); } } => BadConstant 2:10 m.run
return; wait(-1, SC_NS); => BadConstant 2:14 m.run
wait(1, SC_NS); wait(-1, SC_NS); wait(4611687, SC_SEC); => BadConstant 2:22 m.run
wait(1, SC_NS); wait(4611687, SC_SEC); wait(-1, SC_NS); => TimeTooLarge 2:22 m.run
late(); wait(-1, SC_NS); => BadConstant 2:14 m.run
wait(-1, SC_NS); late(); => BadConstant 2:6 m.run
x = 2; => ok
";

/// Whole texts on the times of called functions, in the order of the text.
pub static CALLED: &str = "
SC_MODULE(M) { sc_event e; int x; void f() { e.notify(-1, SC_NS); } void run() { wait(4611687, SC_SEC); f(); } SC_CTOR(M) { SC_THREAD(run); } }; int sc_main(int, char*[]) { M m(\"m\"); } => BadConstant 1:55 m.run
SC_MODULE(M) { sc_event e; int x; void run() { wait(4611687, SC_SEC); f(); } void f() { e.notify(-1, SC_NS); } SC_CTOR(M) { SC_THREAD(run); } }; int sc_main(int, char*[]) { M m(\"m\"); } => TimeTooLarge 1:53 m.run
SC_MODULE(M) { sc_event e; int x; void run() { f(); wait(4611687, SC_SEC); } void f() { e.notify(-1, SC_NS); } SC_CTOR(M) { SC_THREAD(run); } }; int sc_main(int, char*[]) { M m(\"m\"); } => TimeTooLarge 1:58 m.run
SC_MODULE(M) { sc_event e; int x; void run() { f(); } void f() { e.notify(-1, SC_NS); } SC_CTOR(M) { SC_THREAD(run); } }; int sc_main(int, char*[]) { M m(\"m\"); } => BadConstant 1:75 m.run
SC_MODULE(M) { sc_event e; int x; void run() { f(); } void g() { e.notify(-1, SC_NS); } void f() { g(); } SC_CTOR(M) { SC_THREAD(run); } }; int sc_main(int, char*[]) { M m(\"m\"); } => BadConstant 1:75 m.run
SC_MODULE(M) { sc_event e; int x; void g() { e.notify(-1, SC_NS); } void run() { f(); } void f() { g(); e.notify(4611687, SC_SEC); } SC_CTOR(M) { SC_THREAD(run); } }; int sc_main(int, char*[]) { M m(\"m\"); } => BadConstant 1:55 m.run
SC_MODULE(M) { sc_event e; int x; void run() { f(); } void f() { g(); e.notify(4611687, SC_SEC); } void g() { e.notify(-1, SC_NS); } SC_CTOR(M) { SC_THREAD(run); } }; int sc_main(int, char*[]) { M m(\"m\"); } => TimeTooLarge 1:80 m.run
SC_MODULE(M) { sc_event e; int x; int g() { e.notify(-1, SC_NS); return 1; } void run() { x = g(); } SC_CTOR(M) { SC_THREAD(run); } }; int sc_main(int, char*[]) { M m(\"m\"); } => BadConstant 1:54 m.run
SC_MODULE(M) { sc_event e; int x; int g() { e.notify(-1, SC_NS); return 1; } void run() { int v = g(); } SC_CTOR(M) { SC_THREAD(run); } }; int sc_main(int, char*[]) { M m(\"m\"); } => BadConstant 1:54 m.run
SC_MODULE(M) { sc_event e; int x; int g() { e.notify(-1, SC_NS); return 1; } void run() { for (int v = g(); v < 1; v++) ; } SC_CTOR(M) { SC_THREAD(run); } }; int sc_main(int, char*[]) { M m(\"m\"); } => BadConstant 1:54 m.run
SC_MODULE(M) { sc_event e; int x; int g() { e.notify(-1, SC_NS); return 1; } void run() { while (x < 3) { if (x == 1) ; else do { x = g(); } while (false); } } SC_CTOR(M) { SC_THREAD(run); } }; int sc_main(int, char*[]) { M m(\"m\"); } => BadConstant 1:54 m.run
SC_MODULE(M) { sc_event e; int x; void g() { e.notify(-1, SC_NS); } void run() { for (; ; g()) ; } SC_CTOR(M) { SC_THREAD(run); } }; int sc_main(int, char*[]) { M m(\"m\"); } => BadConstant 1:55 m.run
SC_MODULE(M) { sc_event e; int x; void g() { e.notify(-1, SC_NS); } void f() { g(); } void run() { x = 1; } SC_CTOR(M) { SC_THREAD(run); } }; int sc_main(int, char*[]) { M m(\"m\"); } => ok
SC_MODULE(M) { sc_event e; int x; void a() { wait(-1, SC_NS); } void b() { wait(4611687, SC_SEC); } SC_CTOR(M) { SC_THREAD(b); SC_THREAD(a); } }; int sc_main(int, char*[]) { M m(\"m\"); } => TimeTooLarge 1:81 m.b
SC_MODULE(M) { sc_event e; int x; void f() { e.notify(-1, SC_NS); } void a() { x = 1; } void b() { f(); } void c() { f(); } SC_CTOR(M) { SC_THREAD(a); SC_METHOD(c); SC_THREAD(b); } }; int sc_main(int, char*[]) { M m(\"m\"); } => BadConstant 1:55 m.c
SC_MODULE(M) { sc_event e; int x; void run() { next_trigger(-1, SC_NS); } SC_CTOR(M) { SC_METHOD(run); } }; int sc_main(int, char*[]) { M m(\"m\"); } => BadConstant 1:61 m.run
SC_MODULE(M) { sc_event e; int x; void run() { next_trigger(sc_time(4611687, SC_SEC), e); } SC_CTOR(M) { SC_METHOD(run); } }; int sc_main(int, char*[]) { M m(\"m\"); } => TimeTooLarge 1:69 m.run
SC_MODULE(M) { sc_event e; int x; void run() { next_trigger(4611686, SC_SEC); } SC_CTOR(M) { SC_METHOD(run); } }; int sc_main(int, char*[]) { M m(\"m\"); } => ok
SC_MODULE(M) { const int g; M(sc_module_name n, int p) : sc_module(n), g(p) { SC_THREAD(run); } void run() { wait(g, SC_NS); } }; int sc_main(int, char*[]) { M a(\"a\", 0); M b(\"b\", -1); } => BadConstant 1:115 b.run
";

/// Bindings in `sc_main`, of a port of each sort to a channel of each sort: `KI` has the port `p` that is an `sc_in` of int, and so on.
pub static TOPS: &str = "
KI k(\"k\"); k.p(si); => ok
KI k(\"k\"); k.p(sb); => PortKind 2:12 k.p
KI k(\"k\"); k.p(ck); => PortKind 2:12 k.p
KI k(\"k\"); k.p(qi); => PortKind 2:12 k.p
KI k(\"k\"); k.p(qb); => PortKind 2:12 k.p
KJ k(\"k\"); k.p(si); => PortKind 2:12 k.p
KJ k(\"k\"); k.p(sb); => ok
KJ k(\"k\"); k.p(ck); => ok
KJ k(\"k\"); k.p(qi); => PortKind 2:12 k.p
KJ k(\"k\"); k.p(qb); => PortKind 2:12 k.p
KO k(\"k\"); k.p(si); => ok
KO k(\"k\"); k.p(sb); => PortKind 2:12 k.p
KO k(\"k\"); k.p(ck); => PortKind 2:12 k.p
KO k(\"k\"); k.p(qi); => PortKind 2:12 k.p
KO k(\"k\"); k.p(qb); => PortKind 2:12 k.p
KP k(\"k\"); k.p(si); => PortKind 2:12 k.p
KP k(\"k\"); k.p(sb); => ok
KP k(\"k\"); k.p(ck); => PortKind 2:12 k.p
KP k(\"k\"); k.p(qi); => PortKind 2:12 k.p
KP k(\"k\"); k.p(qb); => PortKind 2:12 k.p
KU k(\"k\"); k.p(si); => ok
KU k(\"k\"); k.p(sb); => PortKind 2:12 k.p
KU k(\"k\"); k.p(ck); => PortKind 2:12 k.p
KU k(\"k\"); k.p(qi); => PortKind 2:12 k.p
KU k(\"k\"); k.p(qb); => PortKind 2:12 k.p
KV k(\"k\"); k.p(si); => PortKind 2:12 k.p
KV k(\"k\"); k.p(sb); => ok
KV k(\"k\"); k.p(ck); => PortKind 2:12 k.p
KV k(\"k\"); k.p(qi); => PortKind 2:12 k.p
KV k(\"k\"); k.p(qb); => PortKind 2:12 k.p
KR k(\"k\"); k.p(si); => PortKind 2:12 k.p
KR k(\"k\"); k.p(sb); => PortKind 2:12 k.p
KR k(\"k\"); k.p(ck); => PortKind 2:12 k.p
KR k(\"k\"); k.p(qi); => ok
KR k(\"k\"); k.p(qb); => PortKind 2:12 k.p
KS k(\"k\"); k.p(si); => PortKind 2:12 k.p
KS k(\"k\"); k.p(sb); => PortKind 2:12 k.p
KS k(\"k\"); k.p(ck); => PortKind 2:12 k.p
KS k(\"k\"); k.p(qi); => PortKind 2:12 k.p
KS k(\"k\"); k.p(qb); => ok
KW k(\"k\"); k.p(si); => PortKind 2:12 k.p
KW k(\"k\"); k.p(sb); => PortKind 2:12 k.p
KW k(\"k\"); k.p(ck); => PortKind 2:12 k.p
KW k(\"k\"); k.p(qi); => ok
KW k(\"k\"); k.p(qb); => PortKind 2:12 k.p
KX k(\"k\"); k.p(si); => PortKind 2:12 k.p
KX k(\"k\"); k.p(sb); => PortKind 2:12 k.p
KX k(\"k\"); k.p(ck); => PortKind 2:12 k.p
KX k(\"k\"); k.p(qi); => PortKind 2:12 k.p
KX k(\"k\"); k.p(qb); => ok
KI k(\"k\"); KI l(\"l\"); k.p(l); => PortKind 2:23 k.p
const int n = 1; KI k(\"k\"); k.p(n); => PortKind 2:29 k.p
KI k(\"k\"); k.p.bind(qi); => PortKind 2:12 k.p
KI k(\"k\"); k.p.bind(si); => ok
";

/// Bindings of a child's port of each sort to its parent's port `t` of each sort.
pub static PARENTS: &str = "
sc_in<int> t; KI k{\"k\"}; SC_CTOR(M) { k.p(t); } }; int sc_main(int, char*[]) { sc_signal<int> si; sc_signal<bool> sb; sc_fifo<int> qi; sc_fifo<bool> qb; M m(\"m\"); m.t(si); } => ok
sc_in<bool> t; KI k{\"k\"}; SC_CTOR(M) { k.p(t); } }; int sc_main(int, char*[]) { sc_signal<int> si; sc_signal<bool> sb; sc_fifo<int> qi; sc_fifo<bool> qb; M m(\"m\"); m.t(sb); } => PortKind 2:40 m.k.p
sc_out<int> t; KI k{\"k\"}; SC_CTOR(M) { k.p(t); } }; int sc_main(int, char*[]) { sc_signal<int> si; sc_signal<bool> sb; sc_fifo<int> qi; sc_fifo<bool> qb; M m(\"m\"); m.t(si); } => ok
sc_out<bool> t; KI k{\"k\"}; SC_CTOR(M) { k.p(t); } }; int sc_main(int, char*[]) { sc_signal<int> si; sc_signal<bool> sb; sc_fifo<int> qi; sc_fifo<bool> qb; M m(\"m\"); m.t(sb); } => PortKind 2:41 m.k.p
sc_inout<int> t; KI k{\"k\"}; SC_CTOR(M) { k.p(t); } }; int sc_main(int, char*[]) { sc_signal<int> si; sc_signal<bool> sb; sc_fifo<int> qi; sc_fifo<bool> qb; M m(\"m\"); m.t(si); } => ok
sc_inout<bool> t; KI k{\"k\"}; SC_CTOR(M) { k.p(t); } }; int sc_main(int, char*[]) { sc_signal<int> si; sc_signal<bool> sb; sc_fifo<int> qi; sc_fifo<bool> qb; M m(\"m\"); m.t(sb); } => PortKind 2:43 m.k.p
sc_fifo_in<int> t; KI k{\"k\"}; SC_CTOR(M) { k.p(t); } }; int sc_main(int, char*[]) { sc_signal<int> si; sc_signal<bool> sb; sc_fifo<int> qi; sc_fifo<bool> qb; M m(\"m\"); m.t(qi); } => PortKind 2:44 m.k.p
sc_fifo_in<bool> t; KI k{\"k\"}; SC_CTOR(M) { k.p(t); } }; int sc_main(int, char*[]) { sc_signal<int> si; sc_signal<bool> sb; sc_fifo<int> qi; sc_fifo<bool> qb; M m(\"m\"); m.t(qb); } => PortKind 2:45 m.k.p
sc_fifo_out<int> t; KI k{\"k\"}; SC_CTOR(M) { k.p(t); } }; int sc_main(int, char*[]) { sc_signal<int> si; sc_signal<bool> sb; sc_fifo<int> qi; sc_fifo<bool> qb; M m(\"m\"); m.t(qi); } => PortKind 2:45 m.k.p
sc_fifo_out<bool> t; KI k{\"k\"}; SC_CTOR(M) { k.p(t); } }; int sc_main(int, char*[]) { sc_signal<int> si; sc_signal<bool> sb; sc_fifo<int> qi; sc_fifo<bool> qb; M m(\"m\"); m.t(qb); } => PortKind 2:46 m.k.p
sc_in<int> t; KJ k{\"k\"}; SC_CTOR(M) { k.p(t); } }; int sc_main(int, char*[]) { sc_signal<int> si; sc_signal<bool> sb; sc_fifo<int> qi; sc_fifo<bool> qb; M m(\"m\"); m.t(si); } => PortKind 2:39 m.k.p
sc_in<bool> t; KJ k{\"k\"}; SC_CTOR(M) { k.p(t); } }; int sc_main(int, char*[]) { sc_signal<int> si; sc_signal<bool> sb; sc_fifo<int> qi; sc_fifo<bool> qb; M m(\"m\"); m.t(sb); } => ok
sc_out<int> t; KJ k{\"k\"}; SC_CTOR(M) { k.p(t); } }; int sc_main(int, char*[]) { sc_signal<int> si; sc_signal<bool> sb; sc_fifo<int> qi; sc_fifo<bool> qb; M m(\"m\"); m.t(si); } => PortKind 2:40 m.k.p
sc_out<bool> t; KJ k{\"k\"}; SC_CTOR(M) { k.p(t); } }; int sc_main(int, char*[]) { sc_signal<int> si; sc_signal<bool> sb; sc_fifo<int> qi; sc_fifo<bool> qb; M m(\"m\"); m.t(sb); } => ok
sc_inout<int> t; KJ k{\"k\"}; SC_CTOR(M) { k.p(t); } }; int sc_main(int, char*[]) { sc_signal<int> si; sc_signal<bool> sb; sc_fifo<int> qi; sc_fifo<bool> qb; M m(\"m\"); m.t(si); } => PortKind 2:42 m.k.p
sc_inout<bool> t; KJ k{\"k\"}; SC_CTOR(M) { k.p(t); } }; int sc_main(int, char*[]) { sc_signal<int> si; sc_signal<bool> sb; sc_fifo<int> qi; sc_fifo<bool> qb; M m(\"m\"); m.t(sb); } => ok
sc_fifo_in<int> t; KJ k{\"k\"}; SC_CTOR(M) { k.p(t); } }; int sc_main(int, char*[]) { sc_signal<int> si; sc_signal<bool> sb; sc_fifo<int> qi; sc_fifo<bool> qb; M m(\"m\"); m.t(qi); } => PortKind 2:44 m.k.p
sc_fifo_in<bool> t; KJ k{\"k\"}; SC_CTOR(M) { k.p(t); } }; int sc_main(int, char*[]) { sc_signal<int> si; sc_signal<bool> sb; sc_fifo<int> qi; sc_fifo<bool> qb; M m(\"m\"); m.t(qb); } => PortKind 2:45 m.k.p
sc_fifo_out<int> t; KJ k{\"k\"}; SC_CTOR(M) { k.p(t); } }; int sc_main(int, char*[]) { sc_signal<int> si; sc_signal<bool> sb; sc_fifo<int> qi; sc_fifo<bool> qb; M m(\"m\"); m.t(qi); } => PortKind 2:45 m.k.p
sc_fifo_out<bool> t; KJ k{\"k\"}; SC_CTOR(M) { k.p(t); } }; int sc_main(int, char*[]) { sc_signal<int> si; sc_signal<bool> sb; sc_fifo<int> qi; sc_fifo<bool> qb; M m(\"m\"); m.t(qb); } => PortKind 2:46 m.k.p
sc_in<int> t; KO k{\"k\"}; SC_CTOR(M) { k.p(t); } }; int sc_main(int, char*[]) { sc_signal<int> si; sc_signal<bool> sb; sc_fifo<int> qi; sc_fifo<bool> qb; M m(\"m\"); m.t(si); } => PortKind 2:39 m.k.p
sc_in<bool> t; KO k{\"k\"}; SC_CTOR(M) { k.p(t); } }; int sc_main(int, char*[]) { sc_signal<int> si; sc_signal<bool> sb; sc_fifo<int> qi; sc_fifo<bool> qb; M m(\"m\"); m.t(sb); } => PortKind 2:40 m.k.p
sc_out<int> t; KO k{\"k\"}; SC_CTOR(M) { k.p(t); } }; int sc_main(int, char*[]) { sc_signal<int> si; sc_signal<bool> sb; sc_fifo<int> qi; sc_fifo<bool> qb; M m(\"m\"); m.t(si); } => ok
sc_out<bool> t; KO k{\"k\"}; SC_CTOR(M) { k.p(t); } }; int sc_main(int, char*[]) { sc_signal<int> si; sc_signal<bool> sb; sc_fifo<int> qi; sc_fifo<bool> qb; M m(\"m\"); m.t(sb); } => PortKind 2:41 m.k.p
sc_inout<int> t; KO k{\"k\"}; SC_CTOR(M) { k.p(t); } }; int sc_main(int, char*[]) { sc_signal<int> si; sc_signal<bool> sb; sc_fifo<int> qi; sc_fifo<bool> qb; M m(\"m\"); m.t(si); } => ok
sc_inout<bool> t; KO k{\"k\"}; SC_CTOR(M) { k.p(t); } }; int sc_main(int, char*[]) { sc_signal<int> si; sc_signal<bool> sb; sc_fifo<int> qi; sc_fifo<bool> qb; M m(\"m\"); m.t(sb); } => PortKind 2:43 m.k.p
sc_fifo_in<int> t; KO k{\"k\"}; SC_CTOR(M) { k.p(t); } }; int sc_main(int, char*[]) { sc_signal<int> si; sc_signal<bool> sb; sc_fifo<int> qi; sc_fifo<bool> qb; M m(\"m\"); m.t(qi); } => PortKind 2:44 m.k.p
sc_fifo_in<bool> t; KO k{\"k\"}; SC_CTOR(M) { k.p(t); } }; int sc_main(int, char*[]) { sc_signal<int> si; sc_signal<bool> sb; sc_fifo<int> qi; sc_fifo<bool> qb; M m(\"m\"); m.t(qb); } => PortKind 2:45 m.k.p
sc_fifo_out<int> t; KO k{\"k\"}; SC_CTOR(M) { k.p(t); } }; int sc_main(int, char*[]) { sc_signal<int> si; sc_signal<bool> sb; sc_fifo<int> qi; sc_fifo<bool> qb; M m(\"m\"); m.t(qi); } => PortKind 2:45 m.k.p
sc_fifo_out<bool> t; KO k{\"k\"}; SC_CTOR(M) { k.p(t); } }; int sc_main(int, char*[]) { sc_signal<int> si; sc_signal<bool> sb; sc_fifo<int> qi; sc_fifo<bool> qb; M m(\"m\"); m.t(qb); } => PortKind 2:46 m.k.p
sc_in<int> t; KP k{\"k\"}; SC_CTOR(M) { k.p(t); } }; int sc_main(int, char*[]) { sc_signal<int> si; sc_signal<bool> sb; sc_fifo<int> qi; sc_fifo<bool> qb; M m(\"m\"); m.t(si); } => PortKind 2:39 m.k.p
sc_in<bool> t; KP k{\"k\"}; SC_CTOR(M) { k.p(t); } }; int sc_main(int, char*[]) { sc_signal<int> si; sc_signal<bool> sb; sc_fifo<int> qi; sc_fifo<bool> qb; M m(\"m\"); m.t(sb); } => PortKind 2:40 m.k.p
sc_out<int> t; KP k{\"k\"}; SC_CTOR(M) { k.p(t); } }; int sc_main(int, char*[]) { sc_signal<int> si; sc_signal<bool> sb; sc_fifo<int> qi; sc_fifo<bool> qb; M m(\"m\"); m.t(si); } => PortKind 2:40 m.k.p
sc_out<bool> t; KP k{\"k\"}; SC_CTOR(M) { k.p(t); } }; int sc_main(int, char*[]) { sc_signal<int> si; sc_signal<bool> sb; sc_fifo<int> qi; sc_fifo<bool> qb; M m(\"m\"); m.t(sb); } => ok
sc_inout<int> t; KP k{\"k\"}; SC_CTOR(M) { k.p(t); } }; int sc_main(int, char*[]) { sc_signal<int> si; sc_signal<bool> sb; sc_fifo<int> qi; sc_fifo<bool> qb; M m(\"m\"); m.t(si); } => PortKind 2:42 m.k.p
sc_inout<bool> t; KP k{\"k\"}; SC_CTOR(M) { k.p(t); } }; int sc_main(int, char*[]) { sc_signal<int> si; sc_signal<bool> sb; sc_fifo<int> qi; sc_fifo<bool> qb; M m(\"m\"); m.t(sb); } => ok
sc_fifo_in<int> t; KP k{\"k\"}; SC_CTOR(M) { k.p(t); } }; int sc_main(int, char*[]) { sc_signal<int> si; sc_signal<bool> sb; sc_fifo<int> qi; sc_fifo<bool> qb; M m(\"m\"); m.t(qi); } => PortKind 2:44 m.k.p
sc_fifo_in<bool> t; KP k{\"k\"}; SC_CTOR(M) { k.p(t); } }; int sc_main(int, char*[]) { sc_signal<int> si; sc_signal<bool> sb; sc_fifo<int> qi; sc_fifo<bool> qb; M m(\"m\"); m.t(qb); } => PortKind 2:45 m.k.p
sc_fifo_out<int> t; KP k{\"k\"}; SC_CTOR(M) { k.p(t); } }; int sc_main(int, char*[]) { sc_signal<int> si; sc_signal<bool> sb; sc_fifo<int> qi; sc_fifo<bool> qb; M m(\"m\"); m.t(qi); } => PortKind 2:45 m.k.p
sc_fifo_out<bool> t; KP k{\"k\"}; SC_CTOR(M) { k.p(t); } }; int sc_main(int, char*[]) { sc_signal<int> si; sc_signal<bool> sb; sc_fifo<int> qi; sc_fifo<bool> qb; M m(\"m\"); m.t(qb); } => PortKind 2:46 m.k.p
sc_in<int> t; KU k{\"k\"}; SC_CTOR(M) { k.p(t); } }; int sc_main(int, char*[]) { sc_signal<int> si; sc_signal<bool> sb; sc_fifo<int> qi; sc_fifo<bool> qb; M m(\"m\"); m.t(si); } => PortKind 2:39 m.k.p
sc_in<bool> t; KU k{\"k\"}; SC_CTOR(M) { k.p(t); } }; int sc_main(int, char*[]) { sc_signal<int> si; sc_signal<bool> sb; sc_fifo<int> qi; sc_fifo<bool> qb; M m(\"m\"); m.t(sb); } => PortKind 2:40 m.k.p
sc_out<int> t; KU k{\"k\"}; SC_CTOR(M) { k.p(t); } }; int sc_main(int, char*[]) { sc_signal<int> si; sc_signal<bool> sb; sc_fifo<int> qi; sc_fifo<bool> qb; M m(\"m\"); m.t(si); } => ok
sc_out<bool> t; KU k{\"k\"}; SC_CTOR(M) { k.p(t); } }; int sc_main(int, char*[]) { sc_signal<int> si; sc_signal<bool> sb; sc_fifo<int> qi; sc_fifo<bool> qb; M m(\"m\"); m.t(sb); } => PortKind 2:41 m.k.p
sc_inout<int> t; KU k{\"k\"}; SC_CTOR(M) { k.p(t); } }; int sc_main(int, char*[]) { sc_signal<int> si; sc_signal<bool> sb; sc_fifo<int> qi; sc_fifo<bool> qb; M m(\"m\"); m.t(si); } => ok
sc_inout<bool> t; KU k{\"k\"}; SC_CTOR(M) { k.p(t); } }; int sc_main(int, char*[]) { sc_signal<int> si; sc_signal<bool> sb; sc_fifo<int> qi; sc_fifo<bool> qb; M m(\"m\"); m.t(sb); } => PortKind 2:43 m.k.p
sc_fifo_in<int> t; KU k{\"k\"}; SC_CTOR(M) { k.p(t); } }; int sc_main(int, char*[]) { sc_signal<int> si; sc_signal<bool> sb; sc_fifo<int> qi; sc_fifo<bool> qb; M m(\"m\"); m.t(qi); } => PortKind 2:44 m.k.p
sc_fifo_in<bool> t; KU k{\"k\"}; SC_CTOR(M) { k.p(t); } }; int sc_main(int, char*[]) { sc_signal<int> si; sc_signal<bool> sb; sc_fifo<int> qi; sc_fifo<bool> qb; M m(\"m\"); m.t(qb); } => PortKind 2:45 m.k.p
sc_fifo_out<int> t; KU k{\"k\"}; SC_CTOR(M) { k.p(t); } }; int sc_main(int, char*[]) { sc_signal<int> si; sc_signal<bool> sb; sc_fifo<int> qi; sc_fifo<bool> qb; M m(\"m\"); m.t(qi); } => PortKind 2:45 m.k.p
sc_fifo_out<bool> t; KU k{\"k\"}; SC_CTOR(M) { k.p(t); } }; int sc_main(int, char*[]) { sc_signal<int> si; sc_signal<bool> sb; sc_fifo<int> qi; sc_fifo<bool> qb; M m(\"m\"); m.t(qb); } => PortKind 2:46 m.k.p
sc_in<int> t; KV k{\"k\"}; SC_CTOR(M) { k.p(t); } }; int sc_main(int, char*[]) { sc_signal<int> si; sc_signal<bool> sb; sc_fifo<int> qi; sc_fifo<bool> qb; M m(\"m\"); m.t(si); } => PortKind 2:39 m.k.p
sc_in<bool> t; KV k{\"k\"}; SC_CTOR(M) { k.p(t); } }; int sc_main(int, char*[]) { sc_signal<int> si; sc_signal<bool> sb; sc_fifo<int> qi; sc_fifo<bool> qb; M m(\"m\"); m.t(sb); } => PortKind 2:40 m.k.p
sc_out<int> t; KV k{\"k\"}; SC_CTOR(M) { k.p(t); } }; int sc_main(int, char*[]) { sc_signal<int> si; sc_signal<bool> sb; sc_fifo<int> qi; sc_fifo<bool> qb; M m(\"m\"); m.t(si); } => PortKind 2:40 m.k.p
sc_out<bool> t; KV k{\"k\"}; SC_CTOR(M) { k.p(t); } }; int sc_main(int, char*[]) { sc_signal<int> si; sc_signal<bool> sb; sc_fifo<int> qi; sc_fifo<bool> qb; M m(\"m\"); m.t(sb); } => ok
sc_inout<int> t; KV k{\"k\"}; SC_CTOR(M) { k.p(t); } }; int sc_main(int, char*[]) { sc_signal<int> si; sc_signal<bool> sb; sc_fifo<int> qi; sc_fifo<bool> qb; M m(\"m\"); m.t(si); } => PortKind 2:42 m.k.p
sc_inout<bool> t; KV k{\"k\"}; SC_CTOR(M) { k.p(t); } }; int sc_main(int, char*[]) { sc_signal<int> si; sc_signal<bool> sb; sc_fifo<int> qi; sc_fifo<bool> qb; M m(\"m\"); m.t(sb); } => ok
sc_fifo_in<int> t; KV k{\"k\"}; SC_CTOR(M) { k.p(t); } }; int sc_main(int, char*[]) { sc_signal<int> si; sc_signal<bool> sb; sc_fifo<int> qi; sc_fifo<bool> qb; M m(\"m\"); m.t(qi); } => PortKind 2:44 m.k.p
sc_fifo_in<bool> t; KV k{\"k\"}; SC_CTOR(M) { k.p(t); } }; int sc_main(int, char*[]) { sc_signal<int> si; sc_signal<bool> sb; sc_fifo<int> qi; sc_fifo<bool> qb; M m(\"m\"); m.t(qb); } => PortKind 2:45 m.k.p
sc_fifo_out<int> t; KV k{\"k\"}; SC_CTOR(M) { k.p(t); } }; int sc_main(int, char*[]) { sc_signal<int> si; sc_signal<bool> sb; sc_fifo<int> qi; sc_fifo<bool> qb; M m(\"m\"); m.t(qi); } => PortKind 2:45 m.k.p
sc_fifo_out<bool> t; KV k{\"k\"}; SC_CTOR(M) { k.p(t); } }; int sc_main(int, char*[]) { sc_signal<int> si; sc_signal<bool> sb; sc_fifo<int> qi; sc_fifo<bool> qb; M m(\"m\"); m.t(qb); } => PortKind 2:46 m.k.p
sc_in<int> t; KR k{\"k\"}; SC_CTOR(M) { k.p(t); } }; int sc_main(int, char*[]) { sc_signal<int> si; sc_signal<bool> sb; sc_fifo<int> qi; sc_fifo<bool> qb; M m(\"m\"); m.t(si); } => PortKind 2:39 m.k.p
sc_in<bool> t; KR k{\"k\"}; SC_CTOR(M) { k.p(t); } }; int sc_main(int, char*[]) { sc_signal<int> si; sc_signal<bool> sb; sc_fifo<int> qi; sc_fifo<bool> qb; M m(\"m\"); m.t(sb); } => PortKind 2:40 m.k.p
sc_out<int> t; KR k{\"k\"}; SC_CTOR(M) { k.p(t); } }; int sc_main(int, char*[]) { sc_signal<int> si; sc_signal<bool> sb; sc_fifo<int> qi; sc_fifo<bool> qb; M m(\"m\"); m.t(si); } => PortKind 2:40 m.k.p
sc_out<bool> t; KR k{\"k\"}; SC_CTOR(M) { k.p(t); } }; int sc_main(int, char*[]) { sc_signal<int> si; sc_signal<bool> sb; sc_fifo<int> qi; sc_fifo<bool> qb; M m(\"m\"); m.t(sb); } => PortKind 2:41 m.k.p
sc_inout<int> t; KR k{\"k\"}; SC_CTOR(M) { k.p(t); } }; int sc_main(int, char*[]) { sc_signal<int> si; sc_signal<bool> sb; sc_fifo<int> qi; sc_fifo<bool> qb; M m(\"m\"); m.t(si); } => PortKind 2:42 m.k.p
sc_inout<bool> t; KR k{\"k\"}; SC_CTOR(M) { k.p(t); } }; int sc_main(int, char*[]) { sc_signal<int> si; sc_signal<bool> sb; sc_fifo<int> qi; sc_fifo<bool> qb; M m(\"m\"); m.t(sb); } => PortKind 2:43 m.k.p
sc_fifo_in<int> t; KR k{\"k\"}; SC_CTOR(M) { k.p(t); } }; int sc_main(int, char*[]) { sc_signal<int> si; sc_signal<bool> sb; sc_fifo<int> qi; sc_fifo<bool> qb; M m(\"m\"); m.t(qi); } => ok
sc_fifo_in<bool> t; KR k{\"k\"}; SC_CTOR(M) { k.p(t); } }; int sc_main(int, char*[]) { sc_signal<int> si; sc_signal<bool> sb; sc_fifo<int> qi; sc_fifo<bool> qb; M m(\"m\"); m.t(qb); } => PortKind 2:45 m.k.p
sc_fifo_out<int> t; KR k{\"k\"}; SC_CTOR(M) { k.p(t); } }; int sc_main(int, char*[]) { sc_signal<int> si; sc_signal<bool> sb; sc_fifo<int> qi; sc_fifo<bool> qb; M m(\"m\"); m.t(qi); } => PortKind 2:45 m.k.p
sc_fifo_out<bool> t; KR k{\"k\"}; SC_CTOR(M) { k.p(t); } }; int sc_main(int, char*[]) { sc_signal<int> si; sc_signal<bool> sb; sc_fifo<int> qi; sc_fifo<bool> qb; M m(\"m\"); m.t(qb); } => PortKind 2:46 m.k.p
sc_in<int> t; KS k{\"k\"}; SC_CTOR(M) { k.p(t); } }; int sc_main(int, char*[]) { sc_signal<int> si; sc_signal<bool> sb; sc_fifo<int> qi; sc_fifo<bool> qb; M m(\"m\"); m.t(si); } => PortKind 2:39 m.k.p
sc_in<bool> t; KS k{\"k\"}; SC_CTOR(M) { k.p(t); } }; int sc_main(int, char*[]) { sc_signal<int> si; sc_signal<bool> sb; sc_fifo<int> qi; sc_fifo<bool> qb; M m(\"m\"); m.t(sb); } => PortKind 2:40 m.k.p
sc_out<int> t; KS k{\"k\"}; SC_CTOR(M) { k.p(t); } }; int sc_main(int, char*[]) { sc_signal<int> si; sc_signal<bool> sb; sc_fifo<int> qi; sc_fifo<bool> qb; M m(\"m\"); m.t(si); } => PortKind 2:40 m.k.p
sc_out<bool> t; KS k{\"k\"}; SC_CTOR(M) { k.p(t); } }; int sc_main(int, char*[]) { sc_signal<int> si; sc_signal<bool> sb; sc_fifo<int> qi; sc_fifo<bool> qb; M m(\"m\"); m.t(sb); } => PortKind 2:41 m.k.p
sc_inout<int> t; KS k{\"k\"}; SC_CTOR(M) { k.p(t); } }; int sc_main(int, char*[]) { sc_signal<int> si; sc_signal<bool> sb; sc_fifo<int> qi; sc_fifo<bool> qb; M m(\"m\"); m.t(si); } => PortKind 2:42 m.k.p
sc_inout<bool> t; KS k{\"k\"}; SC_CTOR(M) { k.p(t); } }; int sc_main(int, char*[]) { sc_signal<int> si; sc_signal<bool> sb; sc_fifo<int> qi; sc_fifo<bool> qb; M m(\"m\"); m.t(sb); } => PortKind 2:43 m.k.p
sc_fifo_in<int> t; KS k{\"k\"}; SC_CTOR(M) { k.p(t); } }; int sc_main(int, char*[]) { sc_signal<int> si; sc_signal<bool> sb; sc_fifo<int> qi; sc_fifo<bool> qb; M m(\"m\"); m.t(qi); } => PortKind 2:44 m.k.p
sc_fifo_in<bool> t; KS k{\"k\"}; SC_CTOR(M) { k.p(t); } }; int sc_main(int, char*[]) { sc_signal<int> si; sc_signal<bool> sb; sc_fifo<int> qi; sc_fifo<bool> qb; M m(\"m\"); m.t(qb); } => ok
sc_fifo_out<int> t; KS k{\"k\"}; SC_CTOR(M) { k.p(t); } }; int sc_main(int, char*[]) { sc_signal<int> si; sc_signal<bool> sb; sc_fifo<int> qi; sc_fifo<bool> qb; M m(\"m\"); m.t(qi); } => PortKind 2:45 m.k.p
sc_fifo_out<bool> t; KS k{\"k\"}; SC_CTOR(M) { k.p(t); } }; int sc_main(int, char*[]) { sc_signal<int> si; sc_signal<bool> sb; sc_fifo<int> qi; sc_fifo<bool> qb; M m(\"m\"); m.t(qb); } => PortKind 2:46 m.k.p
sc_in<int> t; KW k{\"k\"}; SC_CTOR(M) { k.p(t); } }; int sc_main(int, char*[]) { sc_signal<int> si; sc_signal<bool> sb; sc_fifo<int> qi; sc_fifo<bool> qb; M m(\"m\"); m.t(si); } => PortKind 2:39 m.k.p
sc_in<bool> t; KW k{\"k\"}; SC_CTOR(M) { k.p(t); } }; int sc_main(int, char*[]) { sc_signal<int> si; sc_signal<bool> sb; sc_fifo<int> qi; sc_fifo<bool> qb; M m(\"m\"); m.t(sb); } => PortKind 2:40 m.k.p
sc_out<int> t; KW k{\"k\"}; SC_CTOR(M) { k.p(t); } }; int sc_main(int, char*[]) { sc_signal<int> si; sc_signal<bool> sb; sc_fifo<int> qi; sc_fifo<bool> qb; M m(\"m\"); m.t(si); } => PortKind 2:40 m.k.p
sc_out<bool> t; KW k{\"k\"}; SC_CTOR(M) { k.p(t); } }; int sc_main(int, char*[]) { sc_signal<int> si; sc_signal<bool> sb; sc_fifo<int> qi; sc_fifo<bool> qb; M m(\"m\"); m.t(sb); } => PortKind 2:41 m.k.p
sc_inout<int> t; KW k{\"k\"}; SC_CTOR(M) { k.p(t); } }; int sc_main(int, char*[]) { sc_signal<int> si; sc_signal<bool> sb; sc_fifo<int> qi; sc_fifo<bool> qb; M m(\"m\"); m.t(si); } => PortKind 2:42 m.k.p
sc_inout<bool> t; KW k{\"k\"}; SC_CTOR(M) { k.p(t); } }; int sc_main(int, char*[]) { sc_signal<int> si; sc_signal<bool> sb; sc_fifo<int> qi; sc_fifo<bool> qb; M m(\"m\"); m.t(sb); } => PortKind 2:43 m.k.p
sc_fifo_in<int> t; KW k{\"k\"}; SC_CTOR(M) { k.p(t); } }; int sc_main(int, char*[]) { sc_signal<int> si; sc_signal<bool> sb; sc_fifo<int> qi; sc_fifo<bool> qb; M m(\"m\"); m.t(qi); } => PortKind 2:44 m.k.p
sc_fifo_in<bool> t; KW k{\"k\"}; SC_CTOR(M) { k.p(t); } }; int sc_main(int, char*[]) { sc_signal<int> si; sc_signal<bool> sb; sc_fifo<int> qi; sc_fifo<bool> qb; M m(\"m\"); m.t(qb); } => PortKind 2:45 m.k.p
sc_fifo_out<int> t; KW k{\"k\"}; SC_CTOR(M) { k.p(t); } }; int sc_main(int, char*[]) { sc_signal<int> si; sc_signal<bool> sb; sc_fifo<int> qi; sc_fifo<bool> qb; M m(\"m\"); m.t(qi); } => ok
sc_fifo_out<bool> t; KW k{\"k\"}; SC_CTOR(M) { k.p(t); } }; int sc_main(int, char*[]) { sc_signal<int> si; sc_signal<bool> sb; sc_fifo<int> qi; sc_fifo<bool> qb; M m(\"m\"); m.t(qb); } => PortKind 2:46 m.k.p
sc_in<int> t; KX k{\"k\"}; SC_CTOR(M) { k.p(t); } }; int sc_main(int, char*[]) { sc_signal<int> si; sc_signal<bool> sb; sc_fifo<int> qi; sc_fifo<bool> qb; M m(\"m\"); m.t(si); } => PortKind 2:39 m.k.p
sc_in<bool> t; KX k{\"k\"}; SC_CTOR(M) { k.p(t); } }; int sc_main(int, char*[]) { sc_signal<int> si; sc_signal<bool> sb; sc_fifo<int> qi; sc_fifo<bool> qb; M m(\"m\"); m.t(sb); } => PortKind 2:40 m.k.p
sc_out<int> t; KX k{\"k\"}; SC_CTOR(M) { k.p(t); } }; int sc_main(int, char*[]) { sc_signal<int> si; sc_signal<bool> sb; sc_fifo<int> qi; sc_fifo<bool> qb; M m(\"m\"); m.t(si); } => PortKind 2:40 m.k.p
sc_out<bool> t; KX k{\"k\"}; SC_CTOR(M) { k.p(t); } }; int sc_main(int, char*[]) { sc_signal<int> si; sc_signal<bool> sb; sc_fifo<int> qi; sc_fifo<bool> qb; M m(\"m\"); m.t(sb); } => PortKind 2:41 m.k.p
sc_inout<int> t; KX k{\"k\"}; SC_CTOR(M) { k.p(t); } }; int sc_main(int, char*[]) { sc_signal<int> si; sc_signal<bool> sb; sc_fifo<int> qi; sc_fifo<bool> qb; M m(\"m\"); m.t(si); } => PortKind 2:42 m.k.p
sc_inout<bool> t; KX k{\"k\"}; SC_CTOR(M) { k.p(t); } }; int sc_main(int, char*[]) { sc_signal<int> si; sc_signal<bool> sb; sc_fifo<int> qi; sc_fifo<bool> qb; M m(\"m\"); m.t(sb); } => PortKind 2:43 m.k.p
sc_fifo_in<int> t; KX k{\"k\"}; SC_CTOR(M) { k.p(t); } }; int sc_main(int, char*[]) { sc_signal<int> si; sc_signal<bool> sb; sc_fifo<int> qi; sc_fifo<bool> qb; M m(\"m\"); m.t(qi); } => PortKind 2:44 m.k.p
sc_fifo_in<bool> t; KX k{\"k\"}; SC_CTOR(M) { k.p(t); } }; int sc_main(int, char*[]) { sc_signal<int> si; sc_signal<bool> sb; sc_fifo<int> qi; sc_fifo<bool> qb; M m(\"m\"); m.t(qb); } => PortKind 2:45 m.k.p
sc_fifo_out<int> t; KX k{\"k\"}; SC_CTOR(M) { k.p(t); } }; int sc_main(int, char*[]) { sc_signal<int> si; sc_signal<bool> sb; sc_fifo<int> qi; sc_fifo<bool> qb; M m(\"m\"); m.t(qi); } => PortKind 2:45 m.k.p
sc_fifo_out<bool> t; KX k{\"k\"}; SC_CTOR(M) { k.p(t); } }; int sc_main(int, char*[]) { sc_signal<int> si; sc_signal<bool> sb; sc_fifo<int> qi; sc_fifo<bool> qb; M m(\"m\"); m.t(qb); } => ok
";

/// Bindings of a child's port to its parent's channel `t`.
pub static INNERS: &str = "
sc_signal<int> t; KI k{\"k\"}; SC_CTOR(M) { k.p(t); } }; int sc_main(int, char*[]) { M m(\"m\"); } => ok
sc_signal<bool> t; KI k{\"k\"}; SC_CTOR(M) { k.p(t); } }; int sc_main(int, char*[]) { M m(\"m\"); } => PortKind 2:44 m.k.p
sc_fifo<int> t; KI k{\"k\"}; SC_CTOR(M) { k.p(t); } }; int sc_main(int, char*[]) { M m(\"m\"); } => PortKind 2:41 m.k.p
sc_fifo<bool> t; KI k{\"k\"}; SC_CTOR(M) { k.p(t); } }; int sc_main(int, char*[]) { M m(\"m\"); } => PortKind 2:42 m.k.p
sc_signal<int> t; KJ k{\"k\"}; SC_CTOR(M) { k.p(t); } }; int sc_main(int, char*[]) { M m(\"m\"); } => PortKind 2:43 m.k.p
sc_signal<bool> t; KJ k{\"k\"}; SC_CTOR(M) { k.p(t); } }; int sc_main(int, char*[]) { M m(\"m\"); } => ok
sc_fifo<int> t; KJ k{\"k\"}; SC_CTOR(M) { k.p(t); } }; int sc_main(int, char*[]) { M m(\"m\"); } => PortKind 2:41 m.k.p
sc_fifo<bool> t; KJ k{\"k\"}; SC_CTOR(M) { k.p(t); } }; int sc_main(int, char*[]) { M m(\"m\"); } => PortKind 2:42 m.k.p
sc_signal<int> t; KO k{\"k\"}; SC_CTOR(M) { k.p(t); } }; int sc_main(int, char*[]) { M m(\"m\"); } => ok
sc_signal<bool> t; KO k{\"k\"}; SC_CTOR(M) { k.p(t); } }; int sc_main(int, char*[]) { M m(\"m\"); } => PortKind 2:44 m.k.p
sc_fifo<int> t; KO k{\"k\"}; SC_CTOR(M) { k.p(t); } }; int sc_main(int, char*[]) { M m(\"m\"); } => PortKind 2:41 m.k.p
sc_fifo<bool> t; KO k{\"k\"}; SC_CTOR(M) { k.p(t); } }; int sc_main(int, char*[]) { M m(\"m\"); } => PortKind 2:42 m.k.p
sc_signal<int> t; KP k{\"k\"}; SC_CTOR(M) { k.p(t); } }; int sc_main(int, char*[]) { M m(\"m\"); } => PortKind 2:43 m.k.p
sc_signal<bool> t; KP k{\"k\"}; SC_CTOR(M) { k.p(t); } }; int sc_main(int, char*[]) { M m(\"m\"); } => ok
sc_fifo<int> t; KP k{\"k\"}; SC_CTOR(M) { k.p(t); } }; int sc_main(int, char*[]) { M m(\"m\"); } => PortKind 2:41 m.k.p
sc_fifo<bool> t; KP k{\"k\"}; SC_CTOR(M) { k.p(t); } }; int sc_main(int, char*[]) { M m(\"m\"); } => PortKind 2:42 m.k.p
sc_signal<int> t; KU k{\"k\"}; SC_CTOR(M) { k.p(t); } }; int sc_main(int, char*[]) { M m(\"m\"); } => ok
sc_signal<bool> t; KU k{\"k\"}; SC_CTOR(M) { k.p(t); } }; int sc_main(int, char*[]) { M m(\"m\"); } => PortKind 2:44 m.k.p
sc_fifo<int> t; KU k{\"k\"}; SC_CTOR(M) { k.p(t); } }; int sc_main(int, char*[]) { M m(\"m\"); } => PortKind 2:41 m.k.p
sc_fifo<bool> t; KU k{\"k\"}; SC_CTOR(M) { k.p(t); } }; int sc_main(int, char*[]) { M m(\"m\"); } => PortKind 2:42 m.k.p
sc_signal<int> t; KV k{\"k\"}; SC_CTOR(M) { k.p(t); } }; int sc_main(int, char*[]) { M m(\"m\"); } => PortKind 2:43 m.k.p
sc_signal<bool> t; KV k{\"k\"}; SC_CTOR(M) { k.p(t); } }; int sc_main(int, char*[]) { M m(\"m\"); } => ok
sc_fifo<int> t; KV k{\"k\"}; SC_CTOR(M) { k.p(t); } }; int sc_main(int, char*[]) { M m(\"m\"); } => PortKind 2:41 m.k.p
sc_fifo<bool> t; KV k{\"k\"}; SC_CTOR(M) { k.p(t); } }; int sc_main(int, char*[]) { M m(\"m\"); } => PortKind 2:42 m.k.p
sc_signal<int> t; KR k{\"k\"}; SC_CTOR(M) { k.p(t); } }; int sc_main(int, char*[]) { M m(\"m\"); } => PortKind 2:43 m.k.p
sc_signal<bool> t; KR k{\"k\"}; SC_CTOR(M) { k.p(t); } }; int sc_main(int, char*[]) { M m(\"m\"); } => PortKind 2:44 m.k.p
sc_fifo<int> t; KR k{\"k\"}; SC_CTOR(M) { k.p(t); } }; int sc_main(int, char*[]) { M m(\"m\"); } => ok
sc_fifo<bool> t; KR k{\"k\"}; SC_CTOR(M) { k.p(t); } }; int sc_main(int, char*[]) { M m(\"m\"); } => PortKind 2:42 m.k.p
sc_signal<int> t; KS k{\"k\"}; SC_CTOR(M) { k.p(t); } }; int sc_main(int, char*[]) { M m(\"m\"); } => PortKind 2:43 m.k.p
sc_signal<bool> t; KS k{\"k\"}; SC_CTOR(M) { k.p(t); } }; int sc_main(int, char*[]) { M m(\"m\"); } => PortKind 2:44 m.k.p
sc_fifo<int> t; KS k{\"k\"}; SC_CTOR(M) { k.p(t); } }; int sc_main(int, char*[]) { M m(\"m\"); } => PortKind 2:41 m.k.p
sc_fifo<bool> t; KS k{\"k\"}; SC_CTOR(M) { k.p(t); } }; int sc_main(int, char*[]) { M m(\"m\"); } => ok
sc_signal<int> t; KW k{\"k\"}; SC_CTOR(M) { k.p(t); } }; int sc_main(int, char*[]) { M m(\"m\"); } => PortKind 2:43 m.k.p
sc_signal<bool> t; KW k{\"k\"}; SC_CTOR(M) { k.p(t); } }; int sc_main(int, char*[]) { M m(\"m\"); } => PortKind 2:44 m.k.p
sc_fifo<int> t; KW k{\"k\"}; SC_CTOR(M) { k.p(t); } }; int sc_main(int, char*[]) { M m(\"m\"); } => ok
sc_fifo<bool> t; KW k{\"k\"}; SC_CTOR(M) { k.p(t); } }; int sc_main(int, char*[]) { M m(\"m\"); } => PortKind 2:42 m.k.p
sc_signal<int> t; KX k{\"k\"}; SC_CTOR(M) { k.p(t); } }; int sc_main(int, char*[]) { M m(\"m\"); } => PortKind 2:43 m.k.p
sc_signal<bool> t; KX k{\"k\"}; SC_CTOR(M) { k.p(t); } }; int sc_main(int, char*[]) { M m(\"m\"); } => PortKind 2:44 m.k.p
sc_fifo<int> t; KX k{\"k\"}; SC_CTOR(M) { k.p(t); } }; int sc_main(int, char*[]) { M m(\"m\"); } => PortKind 2:41 m.k.p
sc_fifo<bool> t; KX k{\"k\"}; SC_CTOR(M) { k.p(t); } }; int sc_main(int, char*[]) { M m(\"m\"); } => ok
sc_event t; KI k{\"k\"}; SC_CTOR(M) { k.p(t); } }; int sc_main(int, char*[]) { M m(\"m\"); } => PortKind 2:37 m.k.p
int t; KI k{\"k\"}; SC_CTOR(M) { k.p(t); } }; int sc_main(int, char*[]) { M m(\"m\"); } => PortKind 2:32 m.k.p
int t[2]; KI k{\"k\"}; SC_CTOR(M) { k.p(t); } }; int sc_main(int, char*[]) { M m(\"m\"); } => PortKind 2:35 m.k.p
const int t = 1; KI k{\"k\"}; SC_CTOR(M) { k.p(t); } }; int sc_main(int, char*[]) { M m(\"m\"); } => PortKind 2:42 m.k.p
KI t; KI k{\"k\"}; SC_CTOR(M) { k.p(t); } }; int sc_main(int, char*[]) { M m(\"m\"); } => PortKind 2:31 m.k.p
";

/// Whole texts on the order of bindings, ports and channels, and of the passes over them.
pub static BINDINGS: &str = "
SC_MODULE(K) { sc_in<int> p; sc_in<int> r; }; int sc_main(int, char*[]) { sc_signal<int> s; sc_signal<int> z; sc_fifo<int> q; K k(\"k\"); k.p(s); k.p(s); } => PortBoundTwice 1:145 k.p
SC_MODULE(K) { sc_in<int> p; sc_in<int> r; }; int sc_main(int, char*[]) { sc_signal<int> s; sc_signal<int> z; sc_fifo<int> q; K k(\"k\"); k.p(s); k.p(z); k.r(s); } => PortBoundTwice 1:145 k.p
SC_MODULE(K) { sc_in<int> p; sc_in<int> r; }; int sc_main(int, char*[]) { sc_signal<int> s; sc_signal<int> z; sc_fifo<int> q; K k(\"k\"); k.p(s); k.p(q); k.r(s); } => PortKind 1:145 k.p
SC_MODULE(K) { sc_in<int> p; sc_in<int> r; }; int sc_main(int, char*[]) { sc_signal<int> s; sc_signal<int> z; sc_fifo<int> q; K k(\"k\"); k.p(s); k.p(s); k.r(q); } => PortBoundTwice 1:145 k.p
SC_MODULE(K) { sc_in<int> p; sc_in<int> r; }; int sc_main(int, char*[]) { sc_signal<int> s; sc_signal<int> z; sc_fifo<int> q; K k(\"k\"); k.p(s); k.r(q); k.p(s); } => PortKind 1:145 k.r
SC_MODULE(K) { sc_in<int> p; sc_in<int> r; }; int sc_main(int, char*[]) { sc_signal<int> s; sc_signal<int> z; sc_fifo<int> q; K k(\"k\"); k.p(q); k.p(s); k.r(s); } => PortKind 1:137 k.p
SC_MODULE(K) { sc_in<int> p; sc_in<int> r; }; int sc_main(int, char*[]) { sc_signal<int> s; sc_signal<int> z; sc_fifo<int> q; K k(\"k\"); k.p(s); k.r(s); } => ok
SC_MODULE(K) { sc_in<int> p; sc_in<int> r; }; int sc_main(int, char*[]) { sc_signal<int> s; sc_signal<int> z; sc_fifo<int> q; K k(\"k\"); K l(\"l\"); k.p(s); k.r(s); l.p(s); l.r(s); } => ok
SC_MODULE(K) { sc_in<int> p; sc_in<int> r; }; SC_MODULE(M) { sc_signal<int> s; K k; SC_CTOR(M) { k.p(s); k.r(s); k.r(s); } }; int sc_main(int, char*[]) { M m(\"m\"); } => PortBoundTwice 1:114 m.k.r
SC_MODULE(K) { sc_in<int> p; sc_in<int> r; }; int sc_main(int, char*[]) { sc_signal<int> s; sc_signal<int> z; sc_fifo<int> q; K k(\"k\"); } => PortNotBound 1:27 k.p
SC_MODULE(K) { sc_in<int> p; sc_in<int> r; }; int sc_main(int, char*[]) { sc_signal<int> s; sc_signal<int> z; sc_fifo<int> q; K k(\"k\"); k.p(s); } => PortNotBound 1:41 k.r
SC_MODULE(K) { sc_in<int> p; sc_in<int> r; }; int sc_main(int, char*[]) { sc_signal<int> s; sc_signal<int> z; sc_fifo<int> q; K k(\"k\"); k.r(s); } => PortNotBound 1:27 k.p
SC_MODULE(K) { sc_in<int> p; sc_in<int> r; }; int sc_main(int, char*[]) { sc_signal<int> s; sc_signal<int> z; sc_fifo<int> q; K k(\"k\"); K l(\"l\"); k.p(s); k.r(s); l.r(s); } => PortNotBound 1:27 l.p
SC_MODULE(K) { sc_in<int> p; sc_in<int> r; }; int sc_main(int, char*[]) { sc_signal<int> s; sc_signal<int> z; sc_fifo<int> q; K k(\"k\"); K l(\"l\"); k.p(s); l.r(s); } => PortNotBound 1:41 k.r
SC_MODULE(K) { sc_in<int> p; sc_in<int> r; }; SC_MODULE(M) { K k; sc_in<int> t; }; int sc_main(int, char*[]) { M m(\"m\"); } => PortNotBound 1:27 m.k.p
SC_MODULE(K) { sc_in<int> p; sc_in<int> r; }; SC_MODULE(M) { sc_in<int> t; K k; }; int sc_main(int, char*[]) { M m(\"m\"); } => PortNotBound 1:73 m.t
SC_MODULE(K) { sc_in<int> p; sc_in<int> r; }; SC_MODULE(M) { K k; sc_in<int> t; SC_CTOR(M) { k.p(t); k.r(t); } }; int sc_main(int, char*[]) { M m(\"m\"); } => PortNotBound 1:78 m.t
SC_MODULE(M) { sc_in_clk c; }; int sc_main(int, char*[]) { M m(\"m\"); } => PortNotBound 1:26 m.c
SC_MODULE(M) { sc_fifo_in<int> a, b; }; int sc_main(int, char*[]) { sc_signal<int> s; sc_signal<int> z; sc_fifo<int> q; M m(\"m\"); m.a(q); } => PortNotBound 1:35 m.b
SC_MODULE(M) { sc_fifo_out<int> a; }; int sc_main(int, char*[]) { sc_signal<int> s; sc_signal<int> z; sc_fifo<int> q; M m(\"m\"); } => PortNotBound 1:33 m.a
SC_MODULE(M) { sc_inout<int> a; }; int sc_main(int, char*[]) { sc_signal<int> s; sc_signal<int> z; sc_fifo<int> q; M m(\"m\"); } => PortNotBound 1:30 m.a
SC_MODULE(M) { sc_out<int> a; }; int sc_main(int, char*[]) { sc_signal<int> s; sc_signal<int> z; sc_fifo<int> q; M m(\"m\"); } => PortNotBound 1:28 m.a
SC_MODULE(K) { sc_in<int> p; sc_in<int> r; }; SC_MODULE(A) { K k; sc_fifo<int> q; SC_CTOR(A) { k.p(q); } }; int sc_main(int, char*[]) { sc_signal<int> s; sc_signal<int> z; sc_fifo<int> q; K k(\"k\"); A a(\"a\"); k.p(q); } => PortKind 1:96 a.k.p
SC_MODULE(K) { sc_in<int> p; sc_in<int> r; }; SC_MODULE(A) { K k; sc_fifo<int> q; SC_CTOR(A) { k.p(q); } }; int sc_main(int, char*[]) { sc_signal<int> s; sc_signal<int> z; sc_fifo<int> q; K k(\"k\"); k.p(q); A a(\"a\"); } => PortKind 1:199 k.p
SC_MODULE(K) { sc_in<int> p; sc_in<int> r; }; SC_MODULE(A) { K k; sc_fifo<int> q; SC_CTOR(A) { k.p(q); } }; SC_MODULE(B) { K k; A a; sc_fifo<int> q; SC_CTOR(B) { k.p(q); } }; int sc_main(int, char*[]) { B b(\"b\"); } => PortKind 1:96 b.a.k.p
SC_MODULE(K) { sc_in<int> p; sc_in<int> r; }; int sc_main(int, char*[]) { sc_signal<int> s; sc_signal<int> z; sc_fifo<int> q; K k(\"k\"); k.p(q); sc_start(0, SC_NS); } => BadConstant 1:154 sc_start
SC_MODULE(K) { sc_in<int> p; sc_in<int> r; }; int sc_main(int, char*[]) { sc_signal<int> s; sc_signal<int> z; sc_fifo<int> q; K k(\"k\"); k.p(q); sc_fifo<int> t(0); } => FifoSize 1:158 t
SC_MODULE(K) { sc_in<int> p; sc_in<int> r; }; int sc_main(int, char*[]) { sc_signal<int> s; sc_signal<int> z; sc_fifo<int> q; K k(\"k\"); K l(\"l\"); l.p(q); } => PortKind 1:147 l.p
SC_MODULE(K) { sc_in<int> p; sc_in<int> r; }; int sc_main(int, char*[]) { sc_signal<int> s; sc_signal<int> z; sc_fifo<int> q; K k(\"k\"); K l(\"l\"); l.p(s); l.p(s); } => PortBoundTwice 1:155 l.p
SC_MODULE(W) { sc_signal<int> s; sc_in<int> p; void a() { s = 1; } void b() { s = 1; } SC_CTOR(W) { SC_THREAD(a); SC_THREAD(b); } }; int sc_main(int, char*[]) { W w(\"w\"); } => PortNotBound 1:45 w.p
";

/// Statements of a second process `a`, where the process `b` writes the signal `s` and the fifo `q`: who writes what again.
pub static WRITING: &str = "
s.write(1); => TwoWriters 1:31 m.s m.b m.a
s = 1; => TwoWriters 1:31 m.s m.b m.a
s.write(s.read()); => TwoWriters 1:31 m.s m.b m.a
s = x; => TwoWriters 1:31 m.s m.b m.a
s = idle(1); => TwoWriters 1:31 m.s m.b m.a
q.write(1); => TwoWriters 1:47 m.q m.b m.a
x = q.nb_write(1); => TwoWriters 1:47 m.q m.b m.a
q.nb_write(1); => TwoWriters 1:47 m.q m.b m.a
x = q.num_free(); => TwoWriters 1:47 m.q m.b m.a
bool v = q.nb_write(2); => TwoWriters 1:47 m.q m.b m.a
put(); => TwoWriters 1:31 m.s m.b m.a
deep(); => TwoWriters 1:31 m.s m.b m.a
x = get(1); => TwoWriters 1:31 m.s m.b m.a
int v = get(1); => TwoWriters 1:31 m.s m.b m.a
get(1); => TwoWriters 1:31 m.s m.b m.a
if (false) s = 1; => TwoWriters 1:31 m.s m.b m.a
if (x == 1) ; else s = 1; => TwoWriters 1:31 m.s m.b m.a
while (false) s = 1; => TwoWriters 1:31 m.s m.b m.a
do s = 1; while (false); => TwoWriters 1:31 m.s m.b m.a
for (s = 1; ; ) ; => TwoWriters 1:31 m.s m.b m.a
for (; ; s = 1) ; => TwoWriters 1:31 m.s m.b m.a
for (; ; ) s = 1; => TwoWriters 1:31 m.s m.b m.a
{ { s = 1; } } => TwoWriters 1:31 m.s m.b m.a
return; s = 1; => TwoWriters 1:31 m.s m.b m.a
for (; ; put()) ; => TwoWriters 1:31 m.s m.b m.a
for (put(); ; ) ; => TwoWriters 1:31 m.s m.b m.a
for (int v = get(1); v < 1; v++) ; => TwoWriters 1:31 m.s m.b m.a
if (false) { do { deep(); } while (true); } => TwoWriters 1:31 m.s m.b m.a
for (q.write(1); ; ) ; => TwoWriters 1:47 m.q m.b m.a
for (; ; q.write(1)) ; => TwoWriters 1:47 m.q m.b m.a
q.write(2); s = 2; => TwoWriters 1:31 m.s m.b m.a
x = s; x = s.read(); wait(s.value_changed_event()); x = s.event(); => ok
wait(q.data_read_event()); wait(q.data_written_event()); => ok
x = q.num_available(); => ok
x = q.read(); => ok
q.read(); => ok
x = q.nb_read(l[0]); => ok
t = 1; e.notify(1, SC_NS); x = idle(1); => ok
";

/// Statements of a second process `a`, where the process `b` reads the fifo `q`: who reads it again.
pub static READING: &str = "
x = q.read(); => TwoReaders 1:47 m.q m.b m.a
q.read(); => TwoReaders 1:47 m.q m.b m.a
int v = q.read(); => TwoReaders 1:47 m.q m.b m.a
x = q.nb_read(x); => TwoReaders 1:47 m.q m.b m.a
q.nb_read(l[1]); => TwoReaders 1:47 m.q m.b m.a
int v; q.nb_read(v); => TwoReaders 1:47 m.q m.b m.a
bool g = q.nb_read(x); => TwoReaders 1:47 m.q m.b m.a
l[1] = q.read(); => TwoReaders 1:47 m.q m.b m.a
s = q.read(); => TwoReaders 1:47 m.q m.b m.a
for (x = q.read(); ; ) ; => TwoReaders 1:47 m.q m.b m.a
for (; ; x = q.read()) ; => TwoReaders 1:47 m.q m.b m.a
put(); => TwoReaders 1:47 m.q m.b m.a
deep(); => TwoReaders 1:47 m.q m.b m.a
x = get(1); => TwoReaders 1:47 m.q m.b m.a
int v = get(1); => TwoReaders 1:47 m.q m.b m.a
x = q.num_available(); => TwoReaders 1:47 m.q m.b m.a
x = l[q.num_available()]; => TwoReaders 1:47 m.q m.b m.a
l[q.num_available()] = 1; => TwoReaders 1:47 m.q m.b m.a
x += q.num_available(); => TwoReaders 1:47 m.q m.b m.a
l[q.num_available()] += 1; => TwoReaders 1:47 m.q m.b m.a
l[q.num_available()]++; => TwoReaders 1:47 m.q m.b m.a
cout << q.num_available(); => TwoReaders 1:47 m.q m.b m.a
cout << x << endl << q.num_available(); => TwoReaders 1:47 m.q m.b m.a
if (q.num_available()) ; => TwoReaders 1:47 m.q m.b m.a
if (q.num_available() == 0 && x == 1) ; => TwoReaders 1:47 m.q m.b m.a
while (q.num_available()) ; => TwoReaders 1:47 m.q m.b m.a
do ; while (q.num_available()); => TwoReaders 1:47 m.q m.b m.a
for (x = q.num_available(); ; ) ; => TwoReaders 1:47 m.q m.b m.a
for (; q.num_available(); ) ; => TwoReaders 1:47 m.q m.b m.a
for (; ; x = q.num_available()) ; => TwoReaders 1:47 m.q m.b m.a
for (int v = q.num_available(); ; ) ; => TwoReaders 1:47 m.q m.b m.a
for (int u = 1, v = q.num_available(); ; ) ; => TwoReaders 1:47 m.q m.b m.a
int v = q.num_available(); => TwoReaders 1:47 m.q m.b m.a
int u, v = q.num_available(); => TwoReaders 1:47 m.q m.b m.a
x = idle(q.num_available()); => TwoReaders 1:47 m.q m.b m.a
idle(q.num_available()); => TwoReaders 1:47 m.q m.b m.a
int v = idle(q.num_available()); => TwoReaders 1:47 m.q m.b m.a
s.write(q.num_available()); => TwoReaders 1:47 m.q m.b m.a
s = q.num_available(); => TwoReaders 1:47 m.q m.b m.a
q.write(q.num_available()); => TwoReaders 1:47 m.q m.b m.a
x = q.nb_write(q.num_available()); => TwoReaders 1:47 m.q m.b m.a
q.nb_write(q.num_available()); => TwoReaders 1:47 m.q m.b m.a
wait(q.num_available(), SC_NS); => TwoReaders 1:47 m.q m.b m.a
wait(q.num_available(), SC_NS, e); => TwoReaders 1:47 m.q m.b m.a
wait(sc_time(q.num_available(), SC_NS)); => TwoReaders 1:47 m.q m.b m.a
e.notify(q.num_available(), SC_NS); => TwoReaders 1:47 m.q m.b m.a
e.notify(sc_time(q.num_available(), SC_NS)); => TwoReaders 1:47 m.q m.b m.a
x = q.num_available() ? 1 : 2; => TwoReaders 1:47 m.q m.b m.a
x = x ? q.num_available() : 2; => TwoReaders 1:47 m.q m.b m.a
x = x ? 1 : q.num_available(); => TwoReaders 1:47 m.q m.b m.a
x = -q.num_available(); => TwoReaders 1:47 m.q m.b m.a
x = ~q.num_available(); => TwoReaders 1:47 m.q m.b m.a
x = !q.num_available(); => TwoReaders 1:47 m.q m.b m.a
x = +q.num_available(); => TwoReaders 1:47 m.q m.b m.a
x = (bool) q.num_available(); => TwoReaders 1:47 m.q m.b m.a
x = int(q.num_available()); => TwoReaders 1:47 m.q m.b m.a
x = (q.num_available()); => TwoReaders 1:47 m.q m.b m.a
x = 1 + q.num_available(); => TwoReaders 1:47 m.q m.b m.a
x = q.num_available() + 1; => TwoReaders 1:47 m.q m.b m.a
x = x << q.num_available(); => TwoReaders 1:47 m.q m.b m.a
x = x < q.num_available(); => TwoReaders 1:47 m.q m.b m.a
x = x && q.num_available(); => TwoReaders 1:47 m.q m.b m.a
x = q.num_available() && x; => TwoReaders 1:47 m.q m.b m.a
x = x || q.num_available(); => TwoReaders 1:47 m.q m.b m.a
x = q.num_available() || x; => TwoReaders 1:47 m.q m.b m.a
x = l[l[q.num_available()]]; => TwoReaders 1:47 m.q m.b m.a
return; x = q.num_available(); => TwoReaders 1:47 m.q m.b m.a
{ { if (x) ; else x = q.num_available(); } } => TwoReaders 1:47 m.q m.b m.a
if (x == 1) while (x == 1) x = q.num_available(); => TwoReaders 1:47 m.q m.b m.a
q.write(1); => ok
q.nb_write(1); => ok
x = q.num_free(); => ok
wait(q.data_written_event()); => ok
wait(q.data_read_event()); => ok
x = idle(1); => ok
";

/// Of the reading above what asks for the free slots of a fifo that the other process writes.
pub static FREE: &str = "
x = q.num_free(); => TwoWriters 1:47 m.q m.b m.a
x = l[q.num_free()]; => TwoWriters 1:47 m.q m.b m.a
l[q.num_free()] = 1; => TwoWriters 1:47 m.q m.b m.a
x += q.num_free(); => TwoWriters 1:47 m.q m.b m.a
l[q.num_free()] += 1; => TwoWriters 1:47 m.q m.b m.a
l[q.num_free()]++; => TwoWriters 1:47 m.q m.b m.a
cout << q.num_free(); => TwoWriters 1:47 m.q m.b m.a
cout << x << endl << q.num_free(); => TwoWriters 1:47 m.q m.b m.a
if (q.num_free()) ; => TwoWriters 1:47 m.q m.b m.a
if (q.num_free() == 0 && x == 1) ; => TwoWriters 1:47 m.q m.b m.a
while (q.num_free()) ; => TwoWriters 1:47 m.q m.b m.a
do ; while (q.num_free()); => TwoWriters 1:47 m.q m.b m.a
for (x = q.num_free(); ; ) ; => TwoWriters 1:47 m.q m.b m.a
for (; q.num_free(); ) ; => TwoWriters 1:47 m.q m.b m.a
for (; ; x = q.num_free()) ; => TwoWriters 1:47 m.q m.b m.a
for (int v = q.num_free(); ; ) ; => TwoWriters 1:47 m.q m.b m.a
for (int u = 1, v = q.num_free(); ; ) ; => TwoWriters 1:47 m.q m.b m.a
int v = q.num_free(); => TwoWriters 1:47 m.q m.b m.a
int u, v = q.num_free(); => TwoWriters 1:47 m.q m.b m.a
x = idle(q.num_free()); => TwoWriters 1:47 m.q m.b m.a
idle(q.num_free()); => TwoWriters 1:47 m.q m.b m.a
int v = idle(q.num_free()); => TwoWriters 1:47 m.q m.b m.a
q.write(q.num_free()); => TwoWriters 1:47 m.q m.b m.a
x = q.nb_write(q.num_free()); => TwoWriters 1:47 m.q m.b m.a
q.nb_write(q.num_free()); => TwoWriters 1:47 m.q m.b m.a
wait(q.num_free(), SC_NS); => TwoWriters 1:47 m.q m.b m.a
wait(q.num_free(), SC_NS, e); => TwoWriters 1:47 m.q m.b m.a
wait(sc_time(q.num_free(), SC_NS)); => TwoWriters 1:47 m.q m.b m.a
e.notify(q.num_free(), SC_NS); => TwoWriters 1:47 m.q m.b m.a
e.notify(sc_time(q.num_free(), SC_NS)); => TwoWriters 1:47 m.q m.b m.a
x = q.num_free() ? 1 : 2; => TwoWriters 1:47 m.q m.b m.a
x = x ? q.num_free() : 2; => TwoWriters 1:47 m.q m.b m.a
x = x ? 1 : q.num_free(); => TwoWriters 1:47 m.q m.b m.a
x = -q.num_free(); => TwoWriters 1:47 m.q m.b m.a
x = ~q.num_free(); => TwoWriters 1:47 m.q m.b m.a
x = !q.num_free(); => TwoWriters 1:47 m.q m.b m.a
x = +q.num_free(); => TwoWriters 1:47 m.q m.b m.a
x = (bool) q.num_free(); => TwoWriters 1:47 m.q m.b m.a
x = int(q.num_free()); => TwoWriters 1:47 m.q m.b m.a
x = (q.num_free()); => TwoWriters 1:47 m.q m.b m.a
x = 1 + q.num_free(); => TwoWriters 1:47 m.q m.b m.a
x = q.num_free() + 1; => TwoWriters 1:47 m.q m.b m.a
x = x << q.num_free(); => TwoWriters 1:47 m.q m.b m.a
x = x < q.num_free(); => TwoWriters 1:47 m.q m.b m.a
x = x && q.num_free(); => TwoWriters 1:47 m.q m.b m.a
x = q.num_free() && x; => TwoWriters 1:47 m.q m.b m.a
x = x || q.num_free(); => TwoWriters 1:47 m.q m.b m.a
x = q.num_free() || x; => TwoWriters 1:47 m.q m.b m.a
x = l[l[q.num_free()]]; => TwoWriters 1:47 m.q m.b m.a
return; x = q.num_free(); => TwoWriters 1:47 m.q m.b m.a
{ { if (x) ; else x = q.num_free(); } } => TwoWriters 1:47 m.q m.b m.a
if (x == 1) while (x == 1) x = q.num_free(); => TwoWriters 1:47 m.q m.b m.a
";

/// Whole texts on two processes at one end of a channel.
pub static HOLDERS: &str = "
SC_MODULE(P) { sc_out<int> o; void run() { o = 1; } SC_CTOR(P) { SC_THREAD(run); } }; int sc_main(int, char*[]) { sc_signal<int> s; P a(\"a\"); P b(\"b\"); a.o(s); b.o(s); } => TwoWriters 1:130 s a.run b.run
SC_MODULE(P) { sc_out<int> o; void run() { o = 1; } SC_CTOR(P) { SC_THREAD(run); } }; int sc_main(int, char*[]) { sc_signal<int> s; P a(\"a\"); P b(\"b\"); b.o(s); a.o(s); } => TwoWriters 1:130 s a.run b.run
SC_MODULE(P) { sc_inout<int> o; void run() { o.write(1); } SC_CTOR(P) { SC_METHOD(run); } }; int sc_main(int, char*[]) { sc_signal<int> s; P a(\"a\"); P b(\"b\"); a.o(s); b.o(s); } => TwoWriters 1:137 s a.run b.run
SC_MODULE(P) { sc_inout<int> o; void run() { wait(o.value_changed_event()); cout << o; } SC_CTOR(P) { SC_THREAD(run); } }; int sc_main(int, char*[]) { sc_signal<int> s; P a(\"a\"); P b(\"b\"); a.o(s); b.o(s); } => ok
SC_MODULE(P) { sc_fifo_out<int> o; void run() { o.write(1); } SC_CTOR(P) { SC_THREAD(run); } }; int sc_main(int, char*[]) { sc_fifo<int> q; P a(\"a\"); P b(\"b\"); a.o(q); b.o(q); } => TwoWriters 1:138 q a.run b.run
SC_MODULE(P) { sc_fifo_in<int> o; void run() { o.read(); } SC_CTOR(P) { SC_THREAD(run); } }; int sc_main(int, char*[]) { sc_fifo<int> q; P a(\"a\"); P b(\"b\"); a.o(q); b.o(q); } => TwoReaders 1:135 q a.run b.run
SC_MODULE(P) { sc_out<int> o; void run() { o = 1; } SC_CTOR(P) { SC_THREAD(run); } }; int sc_main(int, char*[]) { sc_signal<int> s; sc_signal<int> t; P a(\"a\"); P b(\"b\"); a.o(s); b.o(t); } => ok
SC_MODULE(P) { sc_out<int> o; void run() { o = 1; } SC_CTOR(P) { SC_THREAD(run); } }; int sc_main(int, char*[]) { P a(\"a\"); P b(\"b\"); P c(\"c\"); sc_signal<int> t; sc_signal<int> s; a.o(t); b.o(s); c.o(s); } => TwoWriters 1:178 s b.run c.run
SC_MODULE(P) { sc_out<int> o; void run() { o = 1; } SC_CTOR(P) { SC_THREAD(run); } }; int sc_main(int, char*[]) { P a(\"a\"); P b(\"b\"); P c(\"c\"); sc_signal<int> s; a.o(s); b.o(s); c.o(s); } => TwoWriters 1:160 s a.run b.run
SC_MODULE(P) { sc_out<int> o; void run() { o = 1; } SC_CTOR(P) { SC_THREAD(run); } }; int sc_main(int, char*[]) { sc_signal<int> s; P b(\"b\"); P a(\"a\"); a.o(s); b.o(s); } => TwoWriters 1:130 s b.run a.run
SC_MODULE(P) { sc_out<int> o; void run() { o = 1; } SC_CTOR(P) { SC_THREAD(run); } }; SC_MODULE(N) { sc_out<int> o; P p; SC_CTOR(N) { p.o(o); } }; SC_MODULE(L) { sc_inout<int> o; N n; SC_CTOR(L) { n.o(o); } }; int sc_main(int, char*[]) { sc_signal<int> s; L a(\"a\"); L b(\"b\"); a.o(s); b.o(s); } => TwoWriters 1:254 s a.n.p.run b.n.p.run
SC_MODULE(P) { sc_out<int> o; void run() { o = 1; } SC_CTOR(P) { SC_THREAD(run); } }; SC_MODULE(N) { sc_out<int> o; P p; void run() { o = 2; } SC_CTOR(N) { p.o(o); SC_THREAD(run); } }; int sc_main(int, char*[]) { sc_signal<int> s; N n(\"n\"); n.o(s); } => TwoWriters 1:229 s n.p.run n.run
SC_MODULE(P) { sc_out<int> o; void run() { o = 1; } SC_CTOR(P) { SC_THREAD(run); } }; SC_MODULE(N) { sc_out<int> o; void run() { o = 2; } SC_CTOR(N) { p.o(o); SC_THREAD(run); } P p; }; int sc_main(int, char*[]) { N n(\"n\"); sc_signal<int> s; n.o(s); } => TwoWriters 1:239 s n.p.run n.run
SC_MODULE(P) { sc_out<int> o; void run() { o = 1; } SC_CTOR(P) { SC_THREAD(run); } }; SC_MODULE(N) { sc_signal<int> s; P p; void run() { s = 2; } SC_CTOR(N) { p.o(s); SC_THREAD(run); } }; int sc_main(int, char*[]) { N n(\"n\"); } => TwoWriters 1:117 n.s n.p.run n.run
SC_MODULE(N) { sc_signal<int> s; void a() { s = 1; } void b() { s = 1; } void c() { s = 1; } SC_CTOR(N) { SC_THREAD(c); SC_METHOD(a); SC_THREAD(b); } }; int sc_main(int, char*[]) { N n(\"n\"); } => TwoWriters 1:31 n.s n.c n.a
SC_MODULE(N) { sc_fifo<int> q; void a() { q.write(1); q.read(); } void b() { q.write(1); q.read(); } SC_CTOR(N) { SC_THREAD(a); SC_THREAD(b); } }; int sc_main(int, char*[]) { N n(\"n\"); } => TwoWriters 1:29 n.q n.a n.b
SC_MODULE(N) { sc_fifo<int> q; void a() { q.write(1); q.read(); } void b() { q.read(); } SC_CTOR(N) { SC_THREAD(a); SC_THREAD(b); } }; int sc_main(int, char*[]) { N n(\"n\"); } => TwoReaders 1:29 n.q n.a n.b
SC_MODULE(N) { sc_fifo<int> q; sc_signal<int> s; void a() { s = 1; q.read(); } void b() { s = 1; q.read(); } SC_CTOR(N) { SC_THREAD(a); SC_THREAD(b); } }; int sc_main(int, char*[]) { N n(\"n\"); } => TwoReaders 1:29 n.q n.a n.b
SC_MODULE(N) { sc_signal<int> s; sc_fifo<int> q; void a() { s = 1; q.read(); } void b() { s = 1; q.read(); } SC_CTOR(N) { SC_THREAD(a); SC_THREAD(b); } }; int sc_main(int, char*[]) { N n(\"n\"); } => TwoWriters 1:31 n.s n.a n.b
SC_MODULE(N) { sc_signal<int> s; sc_fifo<int> q; void a() { s = 1; s = 2; q.write(1); q.read(); x = q.num_free() + q.num_available(); } int x; void b() { x = s; wait(s.default_event()); } SC_CTOR(N) { SC_THREAD(a); SC_THREAD(b); } }; int sc_main(int, char*[]) { N n(\"n\"); } => ok
SC_MODULE(N) { sc_signal<int> s; void a() { s = 1; } void f() { s = 2; } SC_CTOR(N) { SC_THREAD(a); } }; int sc_main(int, char*[]) { N n(\"n\"); } => ok
SC_MODULE(N) { sc_signal<int> s; void a() { s = 1; } SC_CTOR(N) { SC_THREAD(a); } }; int sc_main(int, char*[]) { N n(\"n\"); N o(\"o\"); } => ok
SC_MODULE(N) { sc_signal<int> s; void f() { s = 1; } void a() { f(); } void b() { f(); } SC_CTOR(N) { SC_THREAD(b); SC_THREAD(a); } }; int sc_main(int, char*[]) { N n(\"n\"); } => TwoWriters 1:31 n.s n.b n.a
SC_MODULE(N) { sc_in<bool> c; sc_signal<int> s; void a() { s = 1; } SC_CTOR(N) { SC_THREAD(a); sensitive << c; } }; int sc_main(int, char*[]) { sc_clock k(\"k\", 2, SC_PS); N n(\"n\"); n.c(k); N o(\"o\"); o.c(k); } => ok
SC_MODULE(N) { sc_signal<int> s; void a() { s = 1; } SC_CTOR(N) { SC_THREAD(a); SC_THREAD(c); SC_THREAD(b); } sc_signal<int> t; void b() { t = 1; } void c() { t = 1; cout << s; } SC_HAS_PROCESS(N); }; int sc_main(int, char*[]) { N n(\"n\"); N o(\"o\"); } => TwoWriters 1:126 n.t n.c n.b
SC_MODULE(C) { sc_signal<int> s; void a() { s = 1; } void b() { s = 1; } SC_CTOR(C) { SC_THREAD(a); SC_THREAD(b); } }; SC_MODULE(N) { C c; sc_signal<int> s; void a() { s = 1; } void b() { s = 1; } SC_CTOR(N) { SC_THREAD(a); SC_THREAD(b); } }; int sc_main(int, char*[]) { N n(\"n\"); } => TwoWriters 1:31 n.c.s n.c.a n.c.b
SC_MODULE(C) { sc_signal<int> s; void a() { s = 1; } void b() { s = 1; } SC_CTOR(C) { SC_THREAD(a); SC_THREAD(b); } }; SC_MODULE(N) { sc_signal<int> s; C c; void a() { s = 1; } void b() { s = 1; } SC_CTOR(N) { SC_THREAD(a); SC_THREAD(b); } }; int sc_main(int, char*[]) { N n(\"n\"); } => TwoWriters 1:150 n.s n.a n.b
";

/// Whole texts on ports that are bound over several levels.
pub static LEVELS: &str = "
SC_MODULE(A) { sc_in<bool> p; }; SC_MODULE(B) { sc_in<bool> p; A a; SC_CTOR(B) { a.p(p); } }; SC_MODULE(C) { sc_in<bool> p; B b; SC_CTOR(C) { b.p(p); } }; int sc_main(int, char*[]) { sc_clock k(\"k\", 2, SC_PS); C c(\"c\"); c.p(k); } => ok
SC_MODULE(A) { sc_in<bool> p; }; SC_MODULE(B) { sc_in<bool> p; A a; SC_CTOR(B) { a.p(p); } }; SC_MODULE(C) { sc_in<bool> p; B b; SC_CTOR(C) { } }; int sc_main(int, char*[]) { sc_clock k(\"k\", 2, SC_PS); C c(\"c\"); c.p(k); } => PortNotBound 1:61 c.b.p
SC_MODULE(A) { sc_in<bool> p; }; SC_MODULE(B) { sc_in<bool> p; A a; SC_CTOR(B) { a.p(p); } }; SC_MODULE(C) { sc_in<bool> p; B b; SC_CTOR(C) { b.p(p); } }; int sc_main(int, char*[]) { sc_clock k(\"k\", 2, SC_PS); C c(\"c\"); } => PortNotBound 1:122 c.p
SC_MODULE(A) { sc_in<bool> p; }; SC_MODULE(B) { sc_in<bool> p; A a; SC_CTOR(B) { a.p(p); } }; SC_MODULE(C) { sc_in<bool> p; B b; SC_CTOR(C) { b.p(p); } }; int sc_main(int, char*[]) { sc_fifo<bool> k; C c(\"c\"); c.p(k); } => PortKind 1:211 c.p
SC_MODULE(A) { sc_out<bool> p; }; SC_MODULE(B) { sc_in<bool> p; A a; SC_CTOR(B) { a.p(p); } }; SC_MODULE(C) { sc_in<bool> p; B b; SC_CTOR(C) { b.p(p); } }; int sc_main(int, char*[]) { sc_fifo<bool> k; C c(\"c\"); c.p(k); } => PortKind 1:83 c.b.a.p
";

/// A module's body in the third line of a text.
pub static WORKED: &str = "
  sc_signal<int> s; void a() { s.write(1); } void b() { s.write(1); } SC_CTOR(M) { SC_THREAD(a); SC_THREAD(b); } => TwoWriters 3:18 m.s m.a m.b
  int x[1048576]; SC_CTOR(M) { } => ok
  int x[1048576], y; SC_CTOR(M) { } => TooManyCells 3:19 m.y
  sc_fifo<int> q; SC_CTOR(M) : q(65536) { } => ok
  sc_fifo<int> q; SC_CTOR(M) : q(65537) { } => FifoSize 3:16 m.q
  sc_fifo<int> q; SC_CTOR(M) : q(0) { } => FifoSize 3:16 m.q
";
