// The credits of a hit: the entries of the Rust's `owners` (`visibility.rs`, lines 438 and 674) in both modes. In mode 0 the polygon that owns the edge
// answered has one. In the other every polygon that owns a tied edge has one, the owner of the edge answered as the last: the cast is walked again, and only where
// it met a further edge at its distance are the edges gone through that it tested. Who was credited for this cast is kept in marks of the call's own, so that no
// pair is compared. The sweep asks for the further ones by themselves, where a tie is noted for its sample.
// Meanings: specs/Credit.antt.
#![tactic(auto)]

ghost use Rattle.std.specs.Prelude.{◌≡◌, List, map, ℕ, eqb, get_or};
ghost use Rattle.lists.specs.Lists.{cons_if};
ghost use Rattle.lists.specs.Parts.{part};
ghost use Rattle.geom.specs.Constants.{nano};
ghost use Rattle.room.specs.Records.{edge_at};
ghost use Rattle.index.specs.Casting.{ties_at};
ghost use Rattle.index.specs.Stands.{index_in};
ghost use Rattle.outline.specs.Outline.{owned, Room};
ghost use Rattle.credit.specs.Credit.{firsts_of, tied_numbers, further_of, credits_of, own_all, Raised, Credited};

use geom::Vec2;
use index::AngularIndex;
use outline::Trace;
use room::Rooms;

// Has the owner p no mark yet? One past the marks counts as marked.
fn is_free(marks: &[u8], p: usize) -> bool
    ensures { result ≡ eqb (get_or marks.now p 1) 0 }
{
    p < marks.len() && marks[p] == 0
}

// Credits the owner of the edge i, where the ray meets that at exactly the distance t and `mine` has no mark of the owner.
fn own_one(
    k: Rooms,
    floats: &[f64],
    words: &[u32],
    owners: &[u32],
    marks: &mut [u8],
    mine: &mut [u8],
    o: Vec2,
    dir: Vec2,
    t: f64,
    i: u32,
    s: Trace,
) -> Trace
    requires { Room k.owners s }
    ensures by_index { (l : List ℕ) → own_all k.owners owners.now (firsts_of owners.now mine.new l) marks.new result ≡ own_all k.owners owners.now
        (firsts_of owners.now mine.old (cons_if (ties_at nano o dir t (edge_at k floats.now words.now i)) (edge_at k floats.now words.now i).edge l)) marks.old s }
    ensures room { Room k.owners result }
{
    if !index::ties(k, floats, o, dir, t, i) {
        return s;
    }
    let e = index::number_at(k, words, i);
    let p = site::owner_at(owners, e as usize) as usize;
    if !is_free(&*mine, p) {
        return s;
    }
    lists::put(mine, p, 1);
    outline::own(k.owners, owners, marks, s, e)
}

// Credits the owners of those of the edges that the words at these places name, each once.
fn own_tied(
    k: Rooms,
    floats: &[f64],
    words: &[u32],
    owners: &[u32],
    marks: &mut [u8],
    mine: &mut [u8],
    from: usize,
    to: usize,
    o: Vec2,
    dir: Vec2,
    t: f64,
    s: Trace,
) -> Trace
    requires { Room k.owners s }
    ensures { owned marks.new result ≡ own_all k.owners owners.now
        (firsts_of owners.now mine.old (tied_numbers o dir t (map (edge_at k floats.now words.now) (part from to words.now)))) marks.old s }
{
    let end = to.min(words.len());
    let tied = &words[from.min(end)..end];
    let mut r = s;
    for i in tied {
        r = own_one(
            k,
            floats,
            words,
            owners,
            &mut *marks,
            &mut *mine,
            o,
            dir,
            t,
            *i,
            r,
        );
    }
    r
}

// The further credits of the cast from o along dir, at the angle, within max: those beside the edge that it hit.
pub fn further(
    k: Rooms,
    x: AngularIndex,
    floats: &[f64],
    words: &[u32],
    owners: &[u32],
    marks: &mut [u8],
    o: Vec2,
    angle: f64,
    dir: Vec2,
    max: f64,
    s: Trace,
) -> Trace
    requires { Room k.owners s }
    ensures result_after { owned marks.new result ≡ own_all k.owners owners.now (further_of (index_in k floats.now words.now x) owners.now o angle dir max) marks.old s }
    ensures raised { Raised k.owners s result }
{
    if x.mode == 0 {
        return s;
    }
    let w = index::walk_at(1e-9, k, x, floats, words, o, angle, dir, max);
    let b = w.best;
    let Some(edge) = b.edge else {
        return s;
    };
    if !b.tied {
        return s;
    }
    let mut mine = [0u8; 4096];
    lists::put(&mut mine, site::owner_at(owners, edge as usize) as usize, 1);
    own_tied(
        k, floats, words, owners, marks, &mut mine, w.from, w.to, o, dir, b.t, s,
    )
}

// All credits of that cast, which hit the edge e: the further ones, and e.
pub fn credit(
    k: Rooms,
    x: AngularIndex,
    floats: &[f64],
    words: &[u32],
    owners: &[u32],
    marks: &mut [u8],
    o: Vec2,
    angle: f64,
    dir: Vec2,
    max: f64,
    e: u32,
    s: Trace,
) -> Trace
    requires { Room k.owners s }
    ensures result_after { owned marks.new result ≡ own_all k.owners owners.now (credits_of (index_in k floats.now words.now x) owners.now o angle dir max e) marks.old s }
    ensures credited { Credited k.owners s result }
{
    let q = further(
        k,
        x,
        floats,
        words,
        owners,
        &mut *marks,
        o,
        angle,
        dir,
        max,
        s,
    );
    outline::own(k.owners, owners, marks, q, e)
}
