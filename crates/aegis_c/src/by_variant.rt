//! The variants as types.

/// Returns the code of a call of `aegis_c_calls` for the lanes of the variant that has this number, and that of the
/// refusal `$none` if none has it. With `::<N>` the call is also for the length of its keys. A call after `chunk`
/// returns its code itself.
macro_rules! by_variant {
    ($number:expr, $none:expr, chunk $call:ident($($argument:expr),*)) => {
        match $number {
            AEGIS128L => $call::<State128X1>($($argument),*),
            AEGIS128X2 => $call::<State128X2>($($argument),*),
            AEGIS128X4 => $call::<State128X4>($($argument),*),
            AEGIS256 => $call::<State256X1>($($argument),*),
            AEGIS256X2 => $call::<State256X2>($($argument),*),
            AEGIS256X4 => $call::<State256X4>($($argument),*),
            _ => code(Err($none)),
        }
    };
    ($number:expr, $none:expr, $module:ident::$call:ident($($argument:expr),*)) => {
        match $number {
            AEGIS128L => code($module::$call::<State128X1>($($argument),*)),
            AEGIS128X2 => code($module::$call::<State128X2>($($argument),*)),
            AEGIS128X4 => code($module::$call::<State128X4>($($argument),*)),
            AEGIS256 => code($module::$call::<State256X1>($($argument),*)),
            AEGIS256X2 => code($module::$call::<State256X2>($($argument),*)),
            AEGIS256X4 => code($module::$call::<State256X4>($($argument),*)),
            _ => code(Err($none)),
        }
    };
    ($number:expr, $none:expr, $module:ident::$call:ident::<N>($($argument:expr),*)) => {
        match $number {
            AEGIS128L => code($module::$call::<State128X1, 16>($($argument),*)),
            AEGIS128X2 => code($module::$call::<State128X2, 16>($($argument),*)),
            AEGIS128X4 => code($module::$call::<State128X4, 16>($($argument),*)),
            AEGIS256 => code($module::$call::<State256X1, 32>($($argument),*)),
            AEGIS256X2 => code($module::$call::<State256X2, 32>($($argument),*)),
            AEGIS256X4 => code($module::$call::<State256X4, 32>($($argument),*)),
            _ => code(Err($none)),
        }
    };
}

pub(crate) use by_variant;
