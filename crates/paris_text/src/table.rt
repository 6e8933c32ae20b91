//! The table of instructions, from which listings are printed and read.

/// Calls `$with!` with the arguments in parentheses and a row for each instruction, of all groups
/// or of the groups that are named behind `in`. A row is the instruction's variant of `Instr`, its
/// mnemonic, and its operands in order, each with its kind. A mnemonic that several instructions
/// have a form of has a keyword between its two ends. The list of operands that some instructions
/// end with stands behind a `;`.
#[macro_export]
macro_rules! instructions {
    ($with:ident $arguments:tt) => {
        $crate::instructions! { $with $arguments in moves flags messages registers control }
    };
    ($with:ident $arguments:tt in $($groups:ident)+) => {
        $crate::instructions! { $with $arguments [$($groups)+] }
    };
    ($with:ident $arguments:tt [] $($rows:tt)*) => {
        $with! { $arguments $($rows)* }
    };
    ($with:ident $arguments:tt [moves $($groups:ident)*] $($rows:tt)*) => {
        $crate::instructions! {
            $with $arguments [$($groups)*]
            $($rows)*
            Move = b"CM_" signed b"_move_2L" (dest: Field, source: Field);
            MoveConstant = b"CM_u_move_constant_1L" (dest: Field, value: Konst);
            MoveZeroAlways = b"CM_u_move_zero_always_1L" (dest: Field);
            MoveAlways = b"CM_u_move_always_1L" (dest: Field, source: Field);
            MyNewsCoordinate = b"CM_my_news_coordinate_1L" (dest: Field, axis: Axis);
            MakeAddress = b"X_make_address_1L" (dest: Field, set: Set; coordinates: Coordinates);
            Operate = b"CM_" op b"_3_1L" (dest: Field, left: Field, right: Field);
            OperateConstant = b"CM_" op b"_constant_3_1L" (dest: Field, left: Field, right: Konst);
            Negate = b"CM_s_negate_2_1L" (dest: Field, source: Field);
            Lognot = b"CM_lognot_2_1L" (dest: Field, source: Field);
        }
    };
    ($with:ident $arguments:tt [flags $($groups:ident)*] $($rows:tt)*) => {
        $crate::instructions! {
            $with $arguments [$($groups)*]
            $($rows)*
            Compare = b"CM_" relation b"_1L" (left: Field, right: Field);
            EqZero = b"CM_u_eq_zero_1L" (source: Field);
            NeZero = b"CM_u_ne_zero_1L" (source: Field);
            LoadTest = b"CM_load_test" (source: Field);
            StoreTest = b"CM_store_test" (dest: Field);
            LoadContext = b"CM_load_context" (source: Field);
            StoreContext = b"CM_store_context" (dest: Field);
            SetContext = b"CM_set_context" (set: Set);
            LogandContextWithTest = b"CM_logand_context_with_test" (set: Set);
            LogandcContextWithTest = b"CM_logandc_context_with_test" (set: Set);
            CheckTarget = b"X_check_target" (set: Set, place: Place; coordinates: Checked);
            CheckGrid = b"X_check_grid" (set: Set, place: Place; steps: Steps);
            CheckDivisor = b"X_check_divisor" (place: Place, source: Field);
        }
    };
    ($with:ident $arguments:tt [messages $($groups:ident)*] $($rows:tt)*) => {
        $crate::instructions! {
            $with $arguments [$($groups)*]
            $($rows)*
            GetFromNews = b"X_get_from_news_1L"
                (dest: Field, source: Field, axis: Axis, by: Konst);
            GetFromNewsAlways = b"X_get_from_news_always_1L"
                (dest: Field, source: Field, axis: Axis, by: Konst);
            Get = b"CM_get_1L" (dest: Field, address: Field, source: Field);
            SendWithOverwrite = b"CM_send_with_overwrite_1L"
                (dest: Field, kind: Kind, address: Field, source: Field);
            SendWithCombiner = b"CM_send_with_" combiner b"_1L"
                (dest: Field, kind: Kind, address: Field, source: Field);
            Global = b"CM_global_" combiner b"_1L" (dest: Register, source: Field);
            Scan = b"CM_scan_with_" combiner b"_1L"
                (dest: Field, source: Field, axis: Axis, direction: Direction, mode: Mode, bit: Bit,
                inclusion: Inclusion);
            ReadFromProcessor = b"CM_" signed b"_read_from_processor_1L"
                (dest: Register, processor: Register, source: Field);
            WriteToProcessor = b"CM_u_write_to_processor_1L"
                (dest: Field, processor: Register, value: Konst);
        }
    };
    ($with:ident $arguments:tt [registers $($groups:ident)*] $($rows:tt)*) => {
        $crate::instructions! {
            $with $arguments [$($groups)*]
            $($rows)*
            FrontConst = b"FE_const" (dest: Register, value: Immediate);
            FrontMove = b"FE_move" (dest: Register, source: Register);
            FrontOperate = b"FE_" op b"" (dest: Register, left: Register, right: Register);
            FrontCompare = b"FE_" relation b"" (dest: Register, left: Register, right: Register);
            FrontNegate = b"FE_s_negate" (dest: Register, source: Register);
            FrontLognot = b"FE_lognot" (dest: Register, source: Register);
            FrontConvert = b"FE_convert" (dest: Register, source: Register, kind: Kind);
            FrontMakeAddress = b"FE_make_address" (dest: Register, set: Set; coordinates: Registers);
            FrontCheckTarget = b"FE_check_target"
                (set: Set, place: Place; coordinates: CheckedRegisters);
            FrontCheckDivisor = b"FE_check_divisor" (place: Place, source: Register);
        }
    };
    ($with:ident $arguments:tt [control $($groups:ident)*] $($rows:tt)*) => {
        $crate::instructions! {
            $with $arguments [$($groups)*]
            $($rows)*
            FrontJump = b"FE_jump" (target: Target);
            FrontJumpZero = b"FE_jump_zero" (test: Register, target: Target);
            FrontJumpNonzero = b"FE_jump_nonzero" (test: Register, target: Target);
            FrontTurn = b"FE_turn" ();
            FrontCall = b"FE_call" (unit: Unit);
            FrontReturn = b"FE_return" ();
            FrontPutBytes = b"FE_put_bytes" (; bytes: Bytes);
            FrontPut = b"FE_put_" format b"" (source: Register);
            FrontGetByte = b"FE_get_byte" (dest: Register);
            FrontHalt = b"FE_halt" ();
        }
    };
}
