// The machine: the open frames, and how they change.
ghost use Rattle.std.specs.Prelude.{◌≡◌, ◌||◌, true, Some, [], ◌∷◌, ◌<◌, ℕ, length, get_or, ltb};
ghost use Rattle.columns.specs.Code.Kept.{literals};
ghost use Rattle.records.specs.Finite.{is_nil, without};
ghost use Rattle.scripts.specs.Calculus.{frame_limit};
ghost use Rattle.scripts.specs.Run.{Frames, extend_by, close};
ghost use Rattle.scripts.specs.Code.Numbered.{no_number};
ghost use Rattle.scripts.specs.Code.Machine.{left, last_goal, below_last, frames_from, Standing};

use columns::column::Column;
use std::marker::Model;

// The literals of a column but one, which become the next frame: its goal, and the literal after it.
#[derive(Clone, Copy)]
pub struct Remainder {
    pub goal: u64,
    pub other: Option<u64>,
}

// What a frame was opened with: the goal of the frame under it, its other literal, and the machine's `back` as it was then. Where
// it has no other literal, the last two are what was there before.
#[derive(Clone, Copy)]
pub struct Frame {
    pub below: u64,
    pub other: u64,
    pub back: usize,
}

// The open frames. A frame is its goal and at most one other open literal, since a column has at most three and one of them is
// connected. `goal` is that of the last frame; `back` frames are left when it is closed: those up to the last that has another
// open literal. So closing a goal writes to no frame, and opening one of one literal writes one word of it. (An array with
// its depth: there is no heap.)
#[derive(Drop)]
pub struct Machine {
    depth: usize,
    goal: u64,
    back: usize,
    frames: [Frame; Machine::FRAMES],
}

impl Model for Machine {
    ghost Value = { Frames ℕ };

    ghost view = { λ m. frames_from m.frames m.goal m.back m.depth };

    ghost invariant = { λ m. Standing m.frames m.back m.depth };
}

// The literal at a position of a column, and the others of the column; none, where it is the only one.
#[tactic(auto, unfolding(records::specs::Finite::without))]
pub fn take_out(column: Column, position: usize) -> (u64, Option<Remainder>)
    requires { position < length (literals column) }
    ensures literal { result.0 ≡ get_or (literals column) position no_number }
    ensures others { left result.1 ≡ without position (literals column) }
{
    match (column, position) {
        (Column::Empty, _) => unreachable!(),
        (Column::One(l), _) => (l, None),
        (Column::Two(l, m), 0) => (l, Remainder::one(m)),
        (Column::Two(l, m), _) => (m, Remainder::one(l)),
        (Column::Three(l, m, n), 0) => (l, Remainder::two(m, n)),
        (Column::Three(l, m, n), 1) => (m, Remainder::two(l, n)),
        (Column::Three(l, m, n), _) => (n, Remainder::two(l, m)),
    }
}

impl Remainder {
    fn one(goal: u64) -> Option<Self>
        ensures { left result ≡ goal ∷ [] }
    {
        Some(Remainder { goal, other: None })
    }

    fn two(goal: u64, other: u64) -> Option<Self>
        ensures { left result ≡ goal ∷ other ∷ [] }
    {
        Some(Remainder {
            goal,
            other: Some(other),
        })
    }
}

impl Machine {
    // Frames open together.
    pub const FRAMES: usize = 64;

    // Frame 0 is open: the literal of a query column.
    pub fn start(goal: u64) -> Self
        ensures { result ≡ (goal ∷ []) ∷ [] }
    {
        Machine {
            depth: 1,
            goal,
            back: 0,
            frames: [Frame {
                below: 0,
                other: 0,
                back: 0,
            }; Machine::FRAMES],
        }
    }

    pub fn is_closed(&self) -> bool
        ensures { result ≡ is_nil self.now }
    {
        self.depth == 0
    }

    // Whether one more frame may be open.
    pub fn has_room(&self) -> bool
        ensures { result ≡ ltb (length self.now) frame_limit }
    {
        self.depth < Machine::FRAMES
    }

    // (A machine may be closed, so that a frame is open is no invariant.)
    pub fn goal(&self) -> u64
        requires { 0 < length self.now }
        ensures { result ≡ last_goal self.now }
    {
        self.goal
    }

    // The goal of a frame below the last.
    pub fn goal_below(&self, frame: u16) -> Option<u64>
        ensures { result ≡ below_last self.now frame }
    {
        let above = frame as usize + 1;
        if above < self.depth {
            return Some(self.frames[above].below);
        }
        None
    }

    // The goal is connected with a column: its other literals are the next frame; where it has none, the goal is closed.
    #[tactic(auto, unfolding(crate::specs::Run::extend_by))]
    pub fn extend(&mut self, next: Option<Remainder>)
        requires { (is_nil (left next) || ltb (length self.old) frame_limit) ≡ true }
        ensures { self.new ≡ extend_by (left next) self.old }
    {
        match next {
            None => self.close(),
            Some(frame) => self.open(frame),
        }
    }

    // The next frame is open.
    fn open(&mut self, next: Remainder)
        requires { length self.old < frame_limit }
        ensures { self.new ≡ left (Some next) ∷ self.old }
    {
        let at = self.depth;
        let below = self.goal;
        self.depth = at + 1;
        self.goal = next.goal;
        match next.other {
            None => self.frames[at].below = below,
            Some(other) => {
                self.frames[at] = Frame {
                    below,
                    other,
                    back: self.back,
                };
                self.back = at + 1;
            }
        }
    }

    // The goal is closed: a frame whose literals are all closed goes, and closes the goal under it.
    pub fn close(&mut self)
        ensures { self.new ≡ close self.old }
    {
        self.depth = self.back;
        if self.back > 0 {
            let frame = self.frames[self.back - 1];
            self.goal = frame.other;
            self.back = frame.back;
        }
    }
}
