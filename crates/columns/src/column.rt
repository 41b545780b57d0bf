// A column with its terms put in, and the terms; the shape of a column.
ghost use Rattle.std.specs.Prelude.{◌≡◌, ◌<◌, false, get_or};
ghost use Rattle.columns.specs.Code.Packed.{term_limit};

// At most three literals, as numbers. A column that does not exist has none. (No Vec: there is no heap.)
#[derive(Clone, Copy)]
pub enum Column {
    Empty,
    One(u64),
    Two(u64, u64),
    Three(u64, u64, u64),
}

// What x, y and fi(x) are: numbers of terms.
#[derive(Clone, Copy)]
pub struct Terms {
    pub x: u32,
    pub y: u32,
    pub fx: u32,
    pub ghost x_fits: { x < term_limit },
    pub ghost y_fits: { y < term_limit },
    pub ghost fx_fits: { fx < term_limit },
}

// How many literals a column has, 0 where there is none (`HasShape`), and whether y stands in it.
#[derive(Clone, Copy)]
pub struct Shape {
    pub size: usize,
    pub y: bool,
}

impl Shape {
    // A column that does not exist.
    pub const NONE: Shape = Shape { size: 0, y: false };

    // Column n of those that have these sizes, none of which has a y.
    pub fn without_y(sizes: &[usize], n: u16) -> Self
        ensures size { result.size ≡ get_or sizes.now n 0 }
        ensures takes { result.y ≡ false }
    {
        Shape {
            size: sizes.get(usize::from(n)).copied().unwrap_or(0),
            y: false,
        }
    }
}
