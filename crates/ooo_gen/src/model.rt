ghost use Rattle.std.specs.Prelude.{◌≡◌, ◌≤◌, ◌+◌, ◌++◌, decimal, IfOk, OnOk};
ghost use Rattle.std.specs.List.{flat_map, range_with_len};
ghost use Rattle.ooo_gen.specs.Text.{most_stages, most_items, modules_text, fifo_line, stage_line, seeded_line, binding_line, main_text, text_of};

use crate::numbers::Numbers;
use itoa::Buffer;
use std::alloc::{AllocError, Global};

// The modules: those with a number of items as what stands before it and after it.

const SOURCE_BEFORE_ITEMS: &[u8] = b"#include <systemc.h>
SC_MODULE(Source) { sc_fifo_out<int> out;
  void run() { for (int i = 0; i < ";

const SOURCE_AFTER_ITEMS: &[u8] = b"; i++) { out.write(i); wait(1, SC_NS); } }
  SC_CTOR(Source) { SC_THREAD(run); } };
";

const STAGE: &[u8] =
    b"SC_MODULE(Stage) { sc_fifo_in<int> in; sc_fifo_out<int> out; const int add; const int gap;
  SC_HAS_PROCESS(Stage);
  Stage(sc_module_name n, int a, int g) : sc_module(n), add(a), gap(g) { SC_THREAD(run); }
  void run() { while (true) { int v = in.read(); wait(gap, SC_NS); out.write(v + add); } } };
";

const DRAIN_BEFORE_ITEMS: &[u8] = b"SC_MODULE(Drain) { sc_fifo_in<int> in;
  void run() { for (int i = 0; i < ";

const DRAIN_AFTER_ITEMS: &[u8] = b"; i++) { int v = in.read(); cout << v << endl; } sc_stop(); }
  SC_CTOR(Drain) { SC_THREAD(run); } };
";

/// The text of a model with so many stages, through which so many items go, and with the numbers of a seed.
///
/// # Errors
///
/// Only where memory runs out.
pub fn text(alloc: Global, stages: u32, items: u32, seed: u32) -> Result<Vec<u8>, AllocError>
    requires some_stages { 1 ≤ stages }
    requires stages { stages ≤ most_stages }
    requires some_items { 1 ≤ items }
    requires items { items ≤ most_items }
    ensures { IfOk result (λ text. text.items ≡ text_of stages items seed) }
{
    let mut text = Vec::new(alloc);
    append_modules(&mut text, items)?;
    append_main(&mut text, stages, seed)?;
    Ok(text)
}

fn append_modules(text: &mut Vec<u8>, items: u32) -> Result<(), AllocError>
    ensures { OnOk result (text.new.items ≡ text.old.items ++ modules_text items) }
{
    append_around(text, SOURCE_BEFORE_ITEMS, items, SOURCE_AFTER_ITEMS)?;
    text.extend_from_slice(STAGE)?;
    append_around(text, DRAIN_BEFORE_ITEMS, items, DRAIN_AFTER_ITEMS)
}

fn append_main(text: &mut Vec<u8>, stages: u32, seed: u32) -> Result<(), AllocError>
    requires { stages ≤ most_stages }
    ensures { OnOk result (text.new.items ≡ text.old.items ++ main_text stages seed) }
{
    text.extend_from_slice(b"int sc_main(int argc, char* argv[]) {\n")?;
    append_fifos(text, stages)?;
    text.extend_from_slice(b"  Source s(\"s\");\n")?;
    append_stages(text, stages, seed)?;
    text.extend_from_slice(b"  Drain d(\"d\");\n  s.out(f0);\n")?;
    append_bindings(text, stages)?;
    append_around(
        text,
        b"  d.in(f",
        stages,
        b");\n  sc_start(1, SC_SEC);\n  return 0;\n}\n",
    )
}

// A fifo before each stage, and one after the last.
fn append_fifos(text: &mut Vec<u8>, stages: u32) -> Result<(), AllocError>
    requires { stages ≤ most_stages }
    ensures { OnOk result
        (text.new.items ≡ text.old.items ++ flat_map fifo_line (range_with_len 0 (stages + 1))) }
{
    let fifos = stages + 1;
    for fifo in 0..fifos {
        append_around(text, b"  sc_fifo<int> f", fifo, b"(4);\n")?;
    }
    Ok(())
}

// The stages, which count from 1, each with its number of the seed's.
fn append_stages(text: &mut Vec<u8>, stages: u32, seed: u32) -> Result<(), AllocError>
    requires { stages ≤ most_stages }
    ensures { OnOk result
        (text.new.items ≡ text.old.items ++ flat_map (seeded_line seed) (range_with_len 1 stages)) }
{
    let mut numbers = Numbers::new(seed);
    for index in 0..stages {
        append_stage(text, index + 1, numbers.draw())?;
    }
    Ok(())
}

// The line of a stage and its number.
fn append_stage(text: &mut Vec<u8>, stage: u32, number: u32) -> Result<(), AllocError>
    ensures { OnOk result (text.new.items ≡ text.old.items ++ stage_line stage number) }
{
    append_with_number(text, b"  Stage g", stage)?;
    append_with_number(text, b"(\"g", stage)?;
    append_with_number(text, b"\", ", number % 100)?;
    append_with_number(text, b", ", 1 + number / 100 % 9)?;
    text.extend_from_slice(b");\n")
}

// The bindings of the stages.
fn append_bindings(text: &mut Vec<u8>, stages: u32) -> Result<(), AllocError>
    requires { stages ≤ most_stages }
    ensures { OnOk result
        (text.new.items ≡ text.old.items ++ flat_map binding_line (range_with_len 1 stages)) }
{
    for index in 0..stages {
        append_binding(text, index + 1)?;
    }
    Ok(())
}

// The line that binds a stage between the fifo before it and that after it.
fn append_binding(text: &mut Vec<u8>, stage: u32) -> Result<(), AllocError>
    requires { 1 ≤ stage }
    ensures { OnOk result (text.new.items ≡ text.old.items ++ binding_line stage) }
{
    append_with_number(text, b"  g", stage)?;
    append_with_number(text, b".in(f", stage - 1)?;
    append_with_number(text, b"); g", stage)?;
    append_with_number(text, b".out(f", stage)?;
    text.extend_from_slice(b");\n")
}

// A number between some bytes.
fn append_around(
    text: &mut Vec<u8>,
    before: &[u8],
    number: u32,
    after: &[u8],
) -> Result<(), AllocError>
    ensures { OnOk result
        (text.new.items ≡ text.old.items ++ (before.now ++ decimal number ++ after.now)) }
{
    append_with_number(text, before, number)?;
    text.extend_from_slice(after)
}

// Some bytes, and a number after them.
fn append_with_number(text: &mut Vec<u8>, before: &[u8], number: u32) -> Result<(), AllocError>
    ensures { OnOk result (text.new.items ≡ text.old.items ++ before.now ++ decimal number) }
{
    text.extend_from_slice(before)?;
    text.extend_from_slice(Buffer::new().format(number).as_bytes())
}
