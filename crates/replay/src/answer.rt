// What a call of numbers answers: a few words, the rest 0.
use lines::pattern;

#[derive(Clone, Copy)]
pub struct Answer {
    pub count: usize,
    pub words: [u64; 5],
}

// No such function.
pub(crate) fn nothing() -> Answer {
    Answer {
        count: 0,
        words: [0; 5],
    }
}

pub(crate) fn word(w: u64) -> Answer {
    Answer {
        count: 1,
        words: [w, 0, 0, 0, 0],
    }
}

pub(crate) fn number(n: u32) -> Answer {
    word(u64::from(n))
}

pub(crate) fn float(x: f64) -> Answer {
    word(pattern(x))
}

pub(crate) fn floats2(v: [f64; 2]) -> Answer {
    Answer {
        count: 2,
        words: [pattern(v[0]), pattern(v[1]), 0, 0, 0],
    }
}

pub(crate) fn floats4(v: [f64; 4]) -> Answer {
    Answer {
        count: 4,
        words: [
            pattern(v[0]),
            pattern(v[1]),
            pattern(v[2]),
            pattern(v[3]),
            0,
        ],
    }
}

// A word and then another.
pub(crate) fn both(v: u64, w: u64) -> Answer {
    Answer {
        count: 2,
        words: [v, w, 0, 0, 0],
    }
}

// A number and then floats.
pub(crate) fn number1(n: u32, x: f64) -> Answer {
    both(u64::from(n), pattern(x))
}

pub(crate) fn number2(n: u32, v: [f64; 2]) -> Answer {
    Answer {
        count: 3,
        words: [u64::from(n), pattern(v[0]), pattern(v[1]), 0, 0],
    }
}

pub(crate) fn number4(n: u32, v: [f64; 4]) -> Answer {
    Answer {
        count: 5,
        words: [
            u64::from(n),
            pattern(v[0]),
            pattern(v[1]),
            pattern(v[2]),
            pattern(v[3]),
        ],
    }
}

// A draw, as a float, and the state after it.
pub(crate) fn float_state(x: f64, state: u64) -> Answer {
    both(pattern(x), state)
}

// The words of an answer into out; how many there are.
pub(crate) fn store(out: &mut [u64], a: Answer) -> usize {
    for (to, word) in out.iter_mut().zip(a.words) {
        *to = word;
    }
    a.count
}
