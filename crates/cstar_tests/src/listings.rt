//! A listing with each instruction and each form of operand is read and printed back.

use cstar_io::MemSink;
use paris_asm::{AsmFault, read};
use paris_code::Image;
use std::alloc::Global;
use std::test::Fail;

/// One instruction of each kind, each operand in each of its forms.
static WHOLE: &str = "\
.shape 0 [2][32768] 64
.shape 1 [8] 1
.slots 5
.depth 4294967295
.final p s32 0:0:32
.final a[0] b1 1:0:1
.final a[10] u16 0:32:16
.unit 0 main 0
.unit 1 _f2 3
0 CM_s_move_2L 0:0:32 0:32:8
1 CM_u_move_2L 0:0:32 0:32:8
2 CM_u_move_constant_1L 0:0:32 #4294967295
3 CM_u_move_constant_1L 0:0:32 r4
4 CM_u_move_zero_always_1L 65535:0:1
5 CM_u_move_always_1L 0:0:32 0:32:32
6 CM_my_news_coordinate_1L 0:0:32 a1
7 X_make_address_1L 0:0:32 s0 0:32:16 r2
8 CM_s_add_3_1L 0:0:32 0:0:32 0:32:32
9 CM_s_subtract_3_1L 0:0:32 0:0:32 0:32:32
10 CM_s_multiply_3_1L 0:0:32 0:0:32 0:32:32
11 CM_s_truncate_3_1L 0:0:32 0:0:32 0:32:32
12 CM_u_truncate_3_1L 0:0:32 0:0:32 0:32:32
13 CM_s_rem_3_1L 0:0:32 0:0:32 0:32:32
14 CM_u_rem_3_1L 0:0:32 0:0:32 0:32:32
15 CM_s_mod_3_1L 0:0:32 0:0:32 0:32:32
16 CM_s_min_3_1L 0:0:32 0:0:32 0:32:32
17 CM_u_min_3_1L 0:0:32 0:0:32 0:32:32
18 CM_s_max_3_1L 0:0:32 0:0:32 0:32:32
19 CM_u_max_3_1L 0:0:32 0:0:32 0:32:32
20 CM_logand_3_1L 0:0:32 0:0:32 0:32:32
21 CM_logior_3_1L 0:0:32 0:0:32 0:32:32
22 CM_logxor_3_1L 0:0:32 0:0:32 0:32:32
23 CM_u_shift_left_3_1L 0:0:32 0:0:32 0:32:32
24 CM_s_shift_right_3_1L 0:0:32 0:0:32 0:32:32
25 CM_u_shift_right_3_1L 0:0:32 0:0:32 0:32:32
26 CM_s_add_constant_3_1L 0:0:32 0:0:32 #1
27 CM_s_subtract_constant_3_1L 0:0:32 0:0:32 #1
28 CM_s_negate_2_1L 0:0:8 0:8:8
29 CM_lognot_2_1L 0:0:8 0:8:8
30 CM_u_eq_1L 0:0:8 0:8:8
31 CM_u_ne_1L 0:0:8 0:8:8
32 CM_s_lt_1L 0:0:8 0:8:8
33 CM_s_le_1L 0:0:8 0:8:8
34 CM_s_gt_1L 0:0:8 0:8:8
35 CM_s_ge_1L 0:0:8 0:8:8
36 CM_u_lt_1L 0:0:8 0:8:8
37 CM_u_le_1L 0:0:8 0:8:8
38 CM_u_gt_1L 0:0:8 0:8:8
39 CM_u_ge_1L 0:0:8 0:8:8
40 CM_u_eq_zero_1L 0:0:8
41 CM_u_ne_zero_1L 0:0:8
42 CM_load_test 0:0:1
43 CM_store_test 0:0:1
44 CM_load_context 0:0:1
45 CM_store_context 0:0:1
46 CM_set_context s1
47 CM_logand_context_with_test s0
48 CM_logandc_context_with_test s0
49 X_check_target s0 1,2 0:0:32/s r3/u
50 X_check_grid s0 3,4 a0=#1 a1=r2
51 X_check_grid s0 3,4
52 X_check_divisor 5,6 0:0:8
53 X_get_from_news_1L 0:0:8 0:8:8 a0 #1
54 X_get_from_news_always_1L 0:0:8 0:8:8 a0 r1
55 CM_get_1L 0:0:8 0:8:8 1:0:8
56 CM_send_with_overwrite_1L 1:0:8 s8 0:8:8 0:16:8
57 CM_send_with_s_add_1L 1:0:16 u16 0:8:8 0:16:32
58 CM_send_with_logand_1L 1:0:16 u16 0:8:8 0:16:32
59 CM_send_with_logior_1L 1:0:16 u16 0:8:8 0:16:32
60 CM_send_with_logxor_1L 1:0:16 u16 0:8:8 0:16:32
61 CM_send_with_s_min_1L 1:0:16 u16 0:8:8 0:16:32
62 CM_send_with_u_min_1L 1:0:16 u16 0:8:8 0:16:32
63 CM_send_with_s_max_1L 1:0:16 u16 0:8:8 0:16:32
64 CM_send_with_u_max_1L 1:0:16 u16 0:8:8 0:16:32
65 CM_global_s_add_1L r0 0:0:32
66 CM_global_logand_1L r0 0:0:32
67 CM_global_logior_1L r0 0:0:32
68 CM_global_logxor_1L r0 0:0:32
69 CM_global_s_min_1L r0 0:0:32
70 CM_global_u_min_1L r0 0:0:32
71 CM_global_s_max_1L r0 0:0:32
72 CM_global_u_max_1L r0 0:0:32
73 CM_scan_with_s_add_1L 0:0:32 0:32:32 a0 up none - in
74 CM_scan_with_logand_1L 0:0:32 0:32:32 a0 up none - in
75 CM_scan_with_logior_1L 0:0:32 0:32:32 a0 up none - in
76 CM_scan_with_logxor_1L 0:0:32 0:32:32 a0 up none - in
77 CM_scan_with_s_min_1L 0:0:32 0:32:32 a0 up none - in
78 CM_scan_with_u_min_1L 0:0:32 0:32:32 a0 up none - in
79 CM_scan_with_s_max_1L 0:0:32 0:32:32 a0 up none - in
80 CM_scan_with_u_max_1L 0:0:32 0:32:32 a0 up none - in
81 CM_scan_with_s_add_1L 0:0:32 0:32:32 a1 down start 0:64:1 ex
82 CM_scan_with_s_add_1L 0:0:32 0:32:32 a1 down segment 0:64:1 ex
83 CM_s_read_from_processor_1L r0 r1 0:0:8
84 CM_u_read_from_processor_1L r0 r1 0:0:8
85 CM_u_write_to_processor_1L 0:0:8 r1 #255
86 FE_const r0 #7
87 FE_move r0 r1
88 FE_s_add r0 r1 r2
89 FE_s_subtract r0 r1 r2
90 FE_s_multiply r0 r1 r2
91 FE_s_truncate r0 r1 r2
92 FE_u_truncate r0 r1 r2
93 FE_s_rem r0 r1 r2
94 FE_u_rem r0 r1 r2
95 FE_s_mod r0 r1 r2
96 FE_s_min r0 r1 r2
97 FE_u_min r0 r1 r2
98 FE_s_max r0 r1 r2
99 FE_u_max r0 r1 r2
100 FE_logand r0 r1 r2
101 FE_logior r0 r1 r2
102 FE_logxor r0 r1 r2
103 FE_u_shift_left r0 r1 r2
104 FE_s_shift_right r0 r1 r2
105 FE_u_shift_right r0 r1 r2
106 FE_u_eq r0 r1 r2
107 FE_u_ne r0 r1 r2
108 FE_s_lt r0 r1 r2
109 FE_s_le r0 r1 r2
110 FE_s_gt r0 r1 r2
111 FE_s_ge r0 r1 r2
112 FE_u_lt r0 r1 r2
113 FE_u_le r0 r1 r2
114 FE_u_gt r0 r1 r2
115 FE_u_ge r0 r1 r2
116 FE_s_negate r0 r1
117 FE_lognot r0 r1
118 FE_convert r0 r1 b1
119 FE_convert r0 r1 s8
120 FE_convert r0 r1 u8
121 FE_convert r0 r1 s16
122 FE_convert r0 r1 u16
123 FE_convert r0 r1 s32
124 FE_convert r0 r1 u32
125 FE_make_address r0 s0 r1 r2
126 FE_check_target s0 7,8 r1/s r2/u
127 FE_check_divisor 9,10 r3
128 FE_jump @0
129 FE_jump_zero r0 @1
130 FE_jump_nonzero r0 @2
131 FE_turn
132 FE_call u1
133 FE_return
134 FE_put_bytes x
135 FE_put_bytes x00ff0a
136 FE_put_s r0
137 FE_put_u r0
138 FE_put_x r0
139 FE_put_o r0
140 FE_put_c r0
141 FE_get_byte r0
142 FE_halt
";

/// Reads a listing of a test, which is short.
fn read_text(alloc: Global, text: &str) -> Result<Image, AsmFault> {
    let bytes = text.as_bytes();
    if bytes.len() > 65536 {
        return Err(AsmFault::Memory);
    }
    read(alloc, bytes)
}

fn is_same(alloc: Global, text: &str) -> Result<bool, Fail> {
    let Ok(image) = read_text(alloc, text) else {
        return Ok(false);
    };
    let mut out = MemSink::new(alloc, 65536, Vec::new(alloc))?;
    let printed = paris_text::print(&image, &mut out).is_ok();
    Ok(printed && out.taken() == text.as_bytes())
}

#[test]
fn listings_are_read_back(rt: HostRuntime) -> Result<(), Fail> {
    assert!(rt; is_same(rt.alloc(), WHOLE)?);
    assert!(rt; is_same(rt.alloc(), ".slots 0\n.depth 0\n")?);
    Ok(())
}
