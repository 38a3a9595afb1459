//! What the tests open.

use asset_names::Ob;

/// Three objects with 100, 200 and 300.
pub const THREE: [(Ob, i64); 3] = [(Ob(1), 100), (Ob(2), 200), (Ob(3), 300)];

/// Room for more entries than a test asks for.
pub const ROOM: usize = 100;
