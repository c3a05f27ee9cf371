//! Lists of parts of a program.

ghost use Rattle.std.specs.Prelude.{ℕ, List, map};
ghost use Rattle.std.specs.List.{flat_map};
ghost use Rattle.hip_io.specs.Sinks.{Writes};
ghost use Rattle.hip_grammar.specs.Show.{commas, after_commas, parenthesized};

use hip_io::{Put, Sink, put_after};
use hip_types::Row;

/// A part of a program that is an item of lists.
pub trait Written {
    ghost text: { Self → List ℕ };

    /// Appends its text.
    fn put<S: Sink>(&self, before: Put, out: &mut S) -> Put
        ensures { Writes before result (S.state out.old) (S.state out.new) (text self.now) };
}

/// Appends the items one after another.
pub fn put_all<S: Sink, T: Written>(before: Put, out: &mut S, items: &Row<T>) -> Put
    ensures { Writes before result (S.state out.old) (S.state out.new) (flat_map T.text items.now) }
{
    let mut put = before;
    'each: for item in items.as_slice() {
        put = item.put(put, out);
    }
    put
}

/// Appends the items with a comma between each two.
pub fn put_joined<S: Sink, T: Written>(before: Put, out: &mut S, items: &Row<T>) -> Put
    ensures { Writes before result (S.state out.old) (S.state out.new) (commas (map T.text items.now)) }
{
    let mut put = before;
    let mut separator = b"".as_slice();
    'each: for item in items.as_slice() {
        put = put_after(put, out, separator);
        put = item.put(put, out);
        separator = b", ".as_slice();
    }
    put
}

/// Appends each item after a comma.
pub fn put_more<S: Sink, T: Written>(before: Put, out: &mut S, items: &Row<T>) -> Put
    ensures { Writes before result (S.state out.old) (S.state out.new) (after_commas (map T.text items.now)) }
{
    let mut put = before;
    'each: for item in items.as_slice() {
        put = put_after(put, out, b", ");
        put = item.put(put, out);
    }
    put
}

/// Appends the items in parentheses, with a comma between each two.
pub fn put_parenthesized<S: Sink, T: Written>(before: Put, out: &mut S, items: &Row<T>) -> Put
    ensures { Writes before result (S.state out.old) (S.state out.new) (parenthesized (map T.text items.now)) }
{
    let put = put_after(before, out, b"(");
    let put = put_joined(put, out, items);
    put_after(put, out, b")")
}
