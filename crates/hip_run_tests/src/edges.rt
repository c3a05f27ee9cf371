//! Numbers and switches at the edges of their widths, by what is printed.

use crate::printed_runs::{Run, assert_runs};
use hip_step::Ending;

const NUMBERS: &[Run] = &[
    Run {
        name: "sums, differences and products that wrap",
        program: "declare void @print_i64(i64)
define i32 @main() {
entry:
  %a = add i8 127, 1
  %b = sext i8 %a to i64
  call void @print_i64(i64 %b)
  %c = zext i8 %a to i64
  call void @print_i64(i64 %c)
  %d = sub i16 -32768, 1
  %e = sext i16 %d to i64
  call void @print_i64(i64 %e)
  %f = mul i64 9223372036854775807, 2
  call void @print_i64(i64 %f)
  %g = mul i32 65536, 65536
  %h = sext i32 %g to i64
  call void @print_i64(i64 %h)
  ret i32 0
}
",
        numbers: &[],
        limit: 100,
        printed: "-128\n128\n32767\n-2\n0\n",
        ending: Ending::Stop(0),
    },
    Run {
        name: "quotients toward 0, and rests with the sign of what is divided",
        program: "declare void @print_i64(i64)
define i32 @main() {
entry:
  %a = sdiv i64 -7, 2
  call void @print_i64(i64 %a)
  %b = srem i64 -7, 2
  call void @print_i64(i64 %b)
  %c = sdiv i8 7, -2
  %d = sext i8 %c to i64
  call void @print_i64(i64 %d)
  %e = srem i8 7, -2
  %f = sext i8 %e to i64
  call void @print_i64(i64 %f)
  %g = udiv i8 -1, 2
  %h = zext i8 %g to i64
  call void @print_i64(i64 %h)
  %i = urem i8 -1, 16
  %j = zext i8 %i to i64
  call void @print_i64(i64 %j)
  ret i32 0
}
",
        numbers: &[],
        limit: 100,
        printed: "-3\n-1\n-3\n1\n127\n15\n",
        ending: Ending::Stop(0),
    },
    Run {
        name: "shifts by all bits but one",
        program: "declare void @print_i64(i64)
define i32 @main() {
entry:
  %a = shl i8 1, 7
  %b = sext i8 %a to i64
  call void @print_i64(i64 %b)
  %c = lshr i8 -1, 7
  %d = sext i8 %c to i64
  call void @print_i64(i64 %d)
  %e = ashr i8 -128, 7
  %f = sext i8 %e to i64
  call void @print_i64(i64 %f)
  %g = shl i64 3, 63
  call void @print_i64(i64 %g)
  %h = lshr i64 -1, 63
  call void @print_i64(i64 %h)
  %i = ashr i64 -9223372036854775808, 62
  call void @print_i64(i64 %i)
  ret i32 0
}
",
        numbers: &[],
        limit: 100,
        printed: "-128\n1\n-1\n-9223372036854775808\n1\n-2\n",
        ending: Ending::Stop(0),
    },
    Run {
        name: "the least and the greatest number",
        program: "declare void @print_i64(i64)
define i32 @main() {
entry:
  call void @print_i64(i64 -9223372036854775808)
  call void @print_i64(i64 9223372036854775807)
  call void @print_i64(i64 18446744073709551615)
  ret i32 -2147483648
}
",
        numbers: &[],
        limit: 100,
        printed: "-9223372036854775808\n9223372036854775807\n-1\n",
        ending: Ending::Stop(-2_147_483_648),
    },
];

const TESTS: &[Run] = &[
    Run {
        name: "comparisons with and without a sign",
        program: "@v = global i64 0
declare void @print_i64(i64)
define i32 @main() {
entry:
  %a = icmp slt i8 -1, 1
  %b = zext i1 %a to i64
  call void @print_i64(i64 %b)
  %c = icmp ult i8 -1, 1
  %d = zext i1 %c to i64
  call void @print_i64(i64 %d)
  %e = icmp sge i64 -9223372036854775808, 9223372036854775807
  %f = zext i1 %e to i64
  call void @print_i64(i64 %f)
  %g = icmp uge i64 -9223372036854775808, 9223372036854775807
  %h = zext i1 %g to i64
  call void @print_i64(i64 %h)
  %i = icmp ult ptr null, @v
  %j = zext i1 %i to i64
  call void @print_i64(i64 %j)
  %k = icmp sgt i1 true, false
  %l = zext i1 %k to i64
  call void @print_i64(i64 %l)
  ret i32 0
}
",
        numbers: &[],
        limit: 100,
        printed: "1\n0\n0\n1\n1\n0\n",
        ending: Ending::Stop(0),
    },
    Run {
        name: "casts to fewer and to more bits",
        program: "@v = global i64 0
declare void @print_i64(i64)
define i32 @main() {
entry:
  %a = trunc i64 -129 to i8
  %b = sext i8 %a to i64
  call void @print_i64(i64 %b)
  %c = trunc i16 256 to i8
  %d = sext i8 %c to i64
  call void @print_i64(i64 %d)
  %e = sext i1 true to i64
  call void @print_i64(i64 %e)
  %f = ptrtoint ptr @v to i32
  %g = zext i32 %f to i64
  call void @print_i64(i64 %g)
  %h = inttoptr i8 -1 to ptr
  %i = ptrtoint ptr %h to i64
  call void @print_i64(i64 %i)
  %j = ptrtoint ptr @v to i16
  %k = zext i16 %j to i64
  call void @print_i64(i64 %k)
  ret i32 0
}
",
        numbers: &[],
        limit: 100,
        printed: "127\n0\n-1\n65536\n255\n0\n",
        ending: Ending::Stop(0),
    },
    Run {
        name: "a switch at the least and the greatest values",
        program: "declare void @print_i64(i64)
define void @kind(i8 %x) {
entry:
  switch i8 %x, label %other [ i8 -1, label %all i8 -128, label %least i8 127, label %most ]
all:
  call void @print_i64(i64 1)
  ret void
least:
  call void @print_i64(i64 2)
  ret void
most:
  call void @print_i64(i64 3)
  ret void
other:
  call void @print_i64(i64 0)
  ret void
}
define i32 @main() {
entry:
  call void @kind(i8 255)
  call void @kind(i8 -128)
  call void @kind(i8 127)
  call void @kind(i8 0)
  switch i64 9223372036854775807, label %last [ i64 -9223372036854775808, label %last i64 9223372036854775807,
      label %found ]
found:
  ret i32 5
last:
  ret i32 6
}
",
        numbers: &[],
        limit: 100,
        printed: "1\n2\n3\n0\n",
        ending: Ending::Stop(5),
    },
    Run {
        name: "switches whose cases stand in no order, and of one case and of none",
        program: "declare void @print_i64(i64)
define i64 @kind(i64 %x) {
entry:
  switch i64 %x, label %other [ i64 7, label %a i64 -3, label %b i64 0, label %c i64 -9223372036854775808, label %d
      i64 300, label %e i64 -1, label %f i64 6, label %a ]
a:
  ret i64 10
b:
  ret i64 20
c:
  ret i64 30
d:
  ret i64 40
e:
  ret i64 50
f:
  ret i64 60
other:
  ret i64 70
}
define i64 @one(i64 %x) {
entry:
  switch i64 %x, label %other [ i64 5, label %five ]
five:
  ret i64 1
other:
  ret i64 0
}
define i64 @none(i64 %x) {
entry:
  switch i64 %x, label %other [ ]
other:
  ret i64 2
}
define void @show(i64 %x) {
entry:
  %k = call i64 @kind(i64 %x)
  call void @print_i64(i64 %k)
  ret void
}
define i32 @main() {
entry:
  call void @show(i64 7)
  call void @show(i64 6)
  call void @show(i64 -3)
  call void @show(i64 0)
  call void @show(i64 -9223372036854775808)
  call void @show(i64 300)
  call void @show(i64 -1)
  call void @show(i64 8)
  call void @show(i64 1)
  call void @show(i64 -2)
  call void @show(i64 9223372036854775807)
  %a = call i64 @one(i64 5)
  call void @print_i64(i64 %a)
  %b = call i64 @one(i64 4)
  call void @print_i64(i64 %b)
  %c = call i64 @one(i64 6)
  call void @print_i64(i64 %c)
  %d = call i64 @none(i64 0)
  call void @print_i64(i64 %d)
  ret i32 0
}
",
        numbers: &[],
        limit: 200,
        printed: "10\n10\n20\n30\n40\n50\n60\n70\n70\n70\n70\n1\n0\n0\n2\n",
        ending: Ending::Stop(0),
    },
];

#[test]
fn numbers_at_their_edges(rt: HostRuntime) {
    assert_runs(&rt, rt.alloc(), NUMBERS);
}

#[test]
fn comparisons_casts_and_switches(rt: HostRuntime) {
    assert_runs(&rt, rt.alloc(), TESTS);
}
