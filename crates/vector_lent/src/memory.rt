// The memory that the calls are lent.
ghost use Rattle.std.specs.Prelude.{◌≤◌};

use vector_text::line::{Kept, Line};

// Own records and CPAs, one behind the other, and room for the operands of a call behind them.
#[derive(Drop)]
pub struct Records {
    room: [u8; 8192],
    own: usize,
    cpas: usize,
    ghost own_within: { own ≤ cpas },
    ghost cpas_within: { cpas ≤ 8192 },
}

// What a call is lent for reading, and its line, whose operands are put behind it.
#[derive(Drop)]
pub struct Given<'a> {
    pub own: &'a [u8],
    pub cpas: &'a [u8],
    pub line: Line<'a>,
}

impl Records {
    pub fn new() -> Records {
        Records {
            room: [0; 8192],
            own: 0,
            cpas: 0,
        }
    }

    // Two operands of a line, from it on.
    pub fn keep(&mut self, line: &Line<'_>, own: usize, cpas: usize) {
        let own = line.put(own, &mut self.room);
        let cpas = line.put(cpas, &mut self.room[own..]);
        self.own = own;
        self.cpas = own + cpas;
    }

    pub fn own(&self) -> &[u8] {
        &self.room[..self.own]
    }

    pub fn give<'a>(&'a mut self, text: &'a [u8]) -> Given<'a> {
        let (own, cpas) = (self.own, self.cpas);
        let room = &mut self.room;
        let (lent, room) = room.split_at_mut(cpas);
        let (own, cpas) = lent.split_at(own);
        Given {
            own,
            cpas,
            line: Line {
                text,
                room,
                side: &mut [],
            },
        }
    }
}

// Of each as much as the longest line has; the versions are the gauge's own.
#[derive(Drop)]
pub struct Lent {
    pub records: Records,
    pub cache: Kept<25700>,
    pub firsts: Kept<1024>,
    pub waiting: Kept<2400>,
    pub major: u8,
    pub minor: u8,
}

impl Lent {
    pub fn new() -> Lent {
        Lent {
            records: Records::new(),
            cache: Kept::new(),
            firsts: Kept::new(),
            waiting: Kept::new(),
            major: 0,
            minor: 0,
        }
    }
}
