// How a function over a lent struct behaves, for any struct: the five forms in which the crates
// host, host_c and host_example take, lend and read a state. The state, what is given beside it and
// what is answered are type parameters, and the function that is called is any closure.
#![tactic(auto)]

ghost use Rattle.lent.specs.Lent.{IsTurned, LeavesLent, TakesLent};

// The core gives the state that is stored, whole, where the old one lay.
pub fn restored<S: Copy, F: FnOnce(S) -> S>(rt: &mut S, core: F)
    requires { F.pre core rt.old }
    ensures { F.post core rt.old rt.new }
{
    *rt = core(*rt);
}

// What a test gives: a number, and the answer of a call that it refuses. `IsRefused` and `IsStored`
// (specs/Lent) name both fields, so it stays a struct.
#[derive(Clone, Copy)]
pub struct Checked<Z> {
    pub number: u8,
    pub answer: Z,
}

// What a core gives: the state to be stored, and the answer.
#[derive(Clone, Copy)]
pub struct Stepped<S, Z> {
    pub rt: S,
    pub answer: Z,
}

// Where the test gives a number, its answer is given and nothing is written. Otherwise the core gets
// the state by value: the state of its result is stored, and the rest is answered.
pub fn turned<
    S: Copy,
    G: Copy,
    L: Drop,
    Z: Copy,
    T: FnOnce(G) -> Checked<Z>,
    F: FnOnce(G, S, L) -> Stepped<S, Z>,
>(rt: &mut S, given: G, lists: L, test: T, core: F) -> Z
    requires test { T.pre test given }
    requires core { F.pre core given rt.old lists }
    ensures { IsTurned (T.post test given) (F.post core given rt.old lists) rt.old rt.new result }
{
    let a = test(given);
    if a.number != 0 {
        return a.answer;
    }
    let r = core(given, *rt, lists);
    *rt = r.rt;
    r.answer
}

// A copy of the state is lent to the core, and comes back beside its answer.
pub fn lending<S: Copy, G, Z, F: FnOnce(&mut S, G) -> Z>(rt: S, given: G, core: F) -> Stepped<S, Z>
    requires { TakesLent (λ p. F.pre core p given) rt }
    ensures { LeavesLent (λ p r q. F.post core p given r q) rt result.answer result.rt }
{
    let mut lent = rt;
    let answer = core(&mut lent, given);
    Stepped { rt: lent, answer }
}

// Two lent structs are read, and copies of them go to the core.
pub fn pairing<D: Copy, E: Copy, Z, F: FnOnce(D, E) -> Z>(d: &D, e: &E, core: F) -> Z
    requires { F.pre core d.now e.now }
    ensures { F.post core d.now e.now result }
{
    core(*d, *e)
}

// The lent state goes on to the core, with copies of what is lent to be read.
pub fn reading<S, G: Copy, I: Copy, O: Copy, L, Z, F: FnOnce(&mut S, G, I, O, L) -> Z>(
    rt: &mut S,
    g: &G,
    i: &I,
    o: &O,
    lists: L,
    core: F,
) -> Z
    requires { TakesLent (λ p. F.pre core p g.now i.now o.now lists) rt.old }
    ensures { LeavesLent (λ p r q. F.post core p g.now i.now o.now lists r q) rt.old result rt.new }
{
    core(rt, *g, *i, *o, lists)
}

#[cfg(test)]
mod tests;
