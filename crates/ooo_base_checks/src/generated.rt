use md5::{Digest, Md5};
use ooo_gen::text;
use std::alloc::AllocError;

// What `bench/gen/text.py` writes, which was written from the definition alone.

static ONE_STAGE: &[u8] = b"#include <systemc.h>
SC_MODULE(Source) { sc_fifo_out<int> out;
  void run() { for (int i = 0; i < 1; i++) { out.write(i); wait(1, SC_NS); } }
  SC_CTOR(Source) { SC_THREAD(run); } };
SC_MODULE(Stage) { sc_fifo_in<int> in; sc_fifo_out<int> out; const int add; const int gap;
  SC_HAS_PROCESS(Stage);
  Stage(sc_module_name n, int a, int g) : sc_module(n), add(a), gap(g) { SC_THREAD(run); }
  void run() { while (true) { int v = in.read(); wait(gap, SC_NS); out.write(v + add); } } };
SC_MODULE(Drain) { sc_fifo_in<int> in;
  void run() { for (int i = 0; i < 1; i++) { int v = in.read(); cout << v << endl; } sc_stop(); }
  SC_CTOR(Drain) { SC_THREAD(run); } };
int sc_main(int argc, char* argv[]) {
  sc_fifo<int> f0(4);
  sc_fifo<int> f1(4);
  Source s(\"s\");
  Stage g1(\"g1\", 90, 7);
  Drain d(\"d\");
  s.out(f0);
  g1.in(f0); g1.out(f1);
  d.in(f1);
  sc_start(1, SC_SEC);
  return 0;
}
";

static THREE_STAGES: &[u8] = b"#include <systemc.h>
SC_MODULE(Source) { sc_fifo_out<int> out;
  void run() { for (int i = 0; i < 5; i++) { out.write(i); wait(1, SC_NS); } }
  SC_CTOR(Source) { SC_THREAD(run); } };
SC_MODULE(Stage) { sc_fifo_in<int> in; sc_fifo_out<int> out; const int add; const int gap;
  SC_HAS_PROCESS(Stage);
  Stage(sc_module_name n, int a, int g) : sc_module(n), add(a), gap(g) { SC_THREAD(run); }
  void run() { while (true) { int v = in.read(); wait(gap, SC_NS); out.write(v + add); } } };
SC_MODULE(Drain) { sc_fifo_in<int> in;
  void run() { for (int i = 0; i < 5; i++) { int v = in.read(); cout << v << endl; } sc_stop(); }
  SC_CTOR(Drain) { SC_THREAD(run); } };
int sc_main(int argc, char* argv[]) {
  sc_fifo<int> f0(4);
  sc_fifo<int> f1(4);
  sc_fifo<int> f2(4);
  sc_fifo<int> f3(4);
  Source s(\"s\");
  Stage g1(\"g1\", 16, 3);
  Stage g2(\"g2\", 33, 7);
  Stage g3(\"g3\", 38, 6);
  Drain d(\"d\");
  s.out(f0);
  g1.in(f0); g1.out(f1);
  g2.in(f1); g2.out(f2);
  g3.in(f2); g3.out(f3);
  d.in(f3);
  sc_start(1, SC_SEC);
  return 0;
}
";

#[test]
fn is_the_text_of_another_program(rt: HostRuntime) -> Result<(), AllocError> {
    assert!(rt; text(rt.alloc(), 1, 1, 1)?.as_slice() == ONE_STAGE);
    assert!(rt; text(rt.alloc(), 3, 5, 7)?.as_slice() == THREE_STAGES);
    Ok(())
}

// By the checksum of the text that the other program writes at the limits.
#[test]
fn is_the_same_at_the_limits(rt: HostRuntime) -> Result<(), AllocError> {
    let text = text(rt.alloc(), 200, 10_000, 4_294_967_295)?;
    let digest = Md5::digest(text.as_slice());
    assert!(rt; text.len() == 17251);
    assert!(rt; digest == *b"\x79\x2e\xba\xc7\x6f\xdf\x4a\x14\x11\x3d\xcd\x30\x6d\x04\xb0\xa1");
    Ok(())
}
