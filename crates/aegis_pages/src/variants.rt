//! Random-access files of each variant of AEGIS.
//!
//! A file is opened with the variant that it was created with. Keys have 32 bytes with AEGIS-256, AEGIS-256X2 and
//! AEGIS-256X4, and 16 bytes with the others.

use crate::pages::Pages;
use aegis_128::{State128X1, State128X2, State128X4};
use aegis_256::{State256X1, State256X2, State256X4};

/// A random-access file under AEGIS-256. Its functions are those of [`Pages`].
pub type SealedPages<S, J, N, A> = Pages<State256X1, 32, S, J, N, A>;

/// A random-access file under AEGIS-256X2. Its functions are those of [`Pages`].
pub type SealedPages256X2<S, J, N, A> = Pages<State256X2, 32, S, J, N, A>;

/// A random-access file under AEGIS-256X4. Its functions are those of [`Pages`].
pub type SealedPages256X4<S, J, N, A> = Pages<State256X4, 32, S, J, N, A>;

/// A random-access file under AEGIS-128L. Its functions are those of [`Pages`].
pub type SealedPages128L<S, J, N, A> = Pages<State128X1, 16, S, J, N, A>;

/// A random-access file under AEGIS-128X2. Its functions are those of [`Pages`].
pub type SealedPages128X2<S, J, N, A> = Pages<State128X2, 16, S, J, N, A>;

/// A random-access file under AEGIS-128X4. Its functions are those of [`Pages`].
pub type SealedPages128X4<S, J, N, A> = Pages<State128X4, 16, S, J, N, A>;
