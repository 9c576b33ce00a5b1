//! Documents and what comes of them. Each text is a row of cases: a document, `=> `, what is printed or how the document is
//! refused, and a line `----`.

// Inclusions: none, a chain, a cycle, domain and range, and bodies of two. Answers come in the order of their bytes,
// each once.
pub(crate) fn inclusions() -> &'static str {
    "axiom SubClassOf(Prof Staff)
fact Prof ann
ask q(?x) :- Staff(?x)
=> answer ann
end 1
----
axiom SubClassOf(Prof Staff)
ask q(?x) :- Staff(?x)
=> end 0
----
=> refused 1 1
----

=> refused 1 2
----
# none=> refused 1 2
----
axiom SubClassOf(A B)
axiom SubClassOf(B C)
fact A x
ask q(?y) :- C(?y)
=> answer x
end 1
----
axiom SubClassOf(A B)
fact B x
ask q(?y) :- A(?y)
=> end 0
----
axiom SubClassOf(A B)
axiom SubClassOf(B A)
fact A b
fact B aa
fact A b
fact A a
fact B b
ask q(?x) :- B(?x)
=> answer a
answer aa
answer b
end 3
----
axiom Domain(r A)
axiom Range(r B)
axiom SubClassOf(And(A B) C)
fact r a b
fact r b a
ask q(?x,?y) :- r(?x,?y), C(?y)
=> answer a b
answer b a
end 2
----
axiom Domain(r A)
axiom Range(r B)
axiom SubClassOf(And(A B) C)
fact r a b
ask q(?x) :- C(?x)
=> end 0
----
axiom Range(Inv(r) A)
fact r a b
ask q(?x) :- A(?x)
=> answer a
end 1
----
axiom Equivalent(A And(B C))
fact B x
fact C x
fact B y
ask q(?v) :- A(?v)
=> answer x
end 1
----
"
}

// Queries: a path, a cycle back, a loop, two parts, and names; as many atoms as there may be; no answer variable, and
// one twice; one name for a concept, a role and an individual.
pub(crate) fn queries() -> &'static str {
    "axiom Property(r)
fact r a b
fact r b c
ask q(?x,?z) :- r(?x,?y), r(?y,?z)
=> answer a c
end 1
----
axiom Property(r)
fact r a b
fact r b b
ask q(?x) :- r(?x,?x)
=> answer b
end 1
----
axiom Property(r)
axiom Class(A)
fact r a b
fact A c
ask q(?y,?x) :- r(?x,?z), A(?y)
=> answer c a
end 1
----
axiom Property(r)
fact r a b
fact r c d
ask q(?y) :- r(a,?y)
=> answer b
end 1
----
axiom Property(r)
fact r a b
ask q(?x) :- r(?x,nobody)
=> end 0
----
axiom Class(A)
fact A x
ask q(?x) :- A(?x),A(?x),A(?x),A(?x),A(?x),A(?x),A(?x),A(?x),A(?x),A(?x),A(?x),A(?x),A(?x),A(?x),A(?x),A(?x),A(?x),A(?x),A(?x),A(?x),A(?x),A(?x),A(?x),A(?x)
=> answer x
end 1
----
axiom Class(A)
fact A x
fact A y
ask q() :- A(?x)
=> answer
end 1
----
axiom Class(A)
ask q() :- A(?x)
=> end 0
----
axiom Class(A)
fact A x
ask q(?x,?x) :- A(?x)
=> answer x x
end 1
----
axiom Domain(a c)
axiom Class(a)
fact a a
fact a a a
ask q(?a) :- a(?a), a(?a,?a), c(?a)
=> answer a
end 1
----
"
}

// Successors that no fact names: two individuals don't share one, nor does one lead back to itself; steps that fold
// back; a successor that a fact names.
pub(crate) fn witnesses() -> &'static str {
    "axiom SubClassOf(A Some(r))
fact A a
fact A b
ask q(?x,?y) :- r(?x,?z), r(?y,?z)
=> answer a a
answer b b
end 2
----
axiom SubClassOf(A Some(r))
fact A a
fact A b
ask q(?x) :- r(?x,?z)
=> answer a
answer b
end 2
----
axiom SubClassOf(A Some(r))
axiom SubClassOf(Some(Inv(r)) Some(r))
fact A a
ask q() :- r(?x,?x)
=> end 0
----
axiom SubClassOf(A Some(r))
axiom SubClassOf(Some(Inv(r)) Some(r))
fact A a
ask q() :- r(?x,?y), r(?y,?z), r(?z,?u)
=> answer
end 1
----
axiom SubClassOf(A Some(r))
axiom SubClassOf(Some(Inv(r)) Some(s))
fact A a
fact A b
ask q(?x,?y) :- r(?x,?u), s(?u,?v), s(?w,?v), r(?y,?w)
=> answer a a
answer b b
end 2
----
axiom SubClassOf(A Some(r))
fact A a
fact r a b
ask q(?y) :- r(a,?y)
=> answer b
end 1
----
"
}

// Clashes: behind a role, named successors or not; along two roles; the number among the inclusions of one axiom. The
// first individual by name, the first role in role order, and back along a role; an inclusion to nothing whose body is
// never derived; a shorter list of a later role; two inclusions at one place; behind a loop of roles, and a loop
// without one. A role and its inverse at one place never decide: what is derived behind either is derived there.
pub(crate) fn clashes() -> &'static str {
    "axiom SubClassOf(A Some(r))
axiom Range(r B)
axiom Range(r C)
axiom Disjoint(B C)
fact A bob
ask q(?x) :- B(?x)
=> inconsistent 4 bob via r
----
axiom SubClassOf(A Some(r))
axiom Range(r B)
axiom Range(r C)
axiom Disjoint(B C)
fact r a b
ask q(?x) :- B(?x)
=> inconsistent 4 a via r
----
axiom Equivalent(A And(B C))
axiom Disjoint(A D E)
fact B x
fact C x
fact E x
ask q(?v) :- A(?v)
=> inconsistent 5 x
----
axiom SubClassOf(A Some(r))
axiom SubClassOf(Some(Inv(r)) Some(s))
axiom Range(s B)
axiom SubClassOf(B nothing)
fact A z
ask q() :- A(?x)
=> inconsistent 4 z via r s
----
axiom SubClassOf(A nothing)
fact A z
fact A b
ask q(?x) :- A(?x)
=> inconsistent 1 b
----
axiom Property(s)
axiom Range(s B)
axiom Domain(r B)
axiom SubClassOf(A And(Some(s) Some(Inv(r))))
axiom SubClassOf(B nothing)
fact A x
ask q() :- A(?x)
=> inconsistent 5 x via Inv(r)
----
axiom SubClassOf(A Some(r))
axiom SubClassOf(Some(r) nothing)
fact C x
fact A a
ask q() :- C(?x)
=> refused 6 3
----
axiom SubClassOf(Some(r) nothing)
axiom SubClassOf(A Some(Inv(r)))
fact A a
ask q() :- A(?x)
=> inconsistent 1 a via Inv(r)
----
axiom SubClassOf(And(A B) nothing)
fact A x
fact B y
ask q(?x) :- A(?x)
=> answer x
end 1
----
axiom SubClassOf(A And(Some(r) Some(t)))
axiom SubClassOf(Some(Inv(r)) Some(s))
axiom SubClassOf(Some(Inv(s)) nothing)
axiom SubClassOf(Some(Inv(t)) nothing)
fact A x
ask q() :- A(?x)
=> inconsistent 5 x via t
----
axiom SubClassOf(B nothing)
axiom SubClassOf(A B)
axiom SubClassOf(A nothing)
fact A x
ask q() :- A(?x)
=> inconsistent 1 x
----
axiom SubClassOf(A Some(r))
axiom SubClassOf(Some(Inv(r)) Some(s))
axiom SubClassOf(Some(Inv(s)) Some(r))
axiom SubClassOf(Some(Inv(s)) Some(t))
axiom SubClassOf(Some(Inv(t)) nothing)
fact A x
ask q() :- A(?x)
=> inconsistent 5 x via r s t
----
axiom SubClassOf(A Some(r))
axiom SubClassOf(Some(Inv(r)) Some(s))
axiom SubClassOf(Some(Inv(s)) Some(r))
axiom SubClassOf(And(A Some(Inv(s))) nothing)
fact A x
ask q() :- A(?x)
=> answer
end 1
----
"
}

// Refusals: a concept or a role that no axiom names; lines that have no form, or stand out of order; a query that is
// unsafe, or too large, or both. The first line is named, and of its codes the first.
pub(crate) fn refusals() -> &'static str {
    "axiom SubClassOf(A B)
fact A x
fact C y
ask q(?x) :- B(?x)
=> refused 6 3
----
axiom Class(A)
fact B x
=> refused 6 2
----
axiom SubClassOf(A B)
ask q(?x) :- C(?x)
=> refused 6 2
----
axiom Class(A)
fact r x y
=> refused 7 2
----
axiom Class(A)
axiom Property(r)
fact A x
ask q(?x) :- A(?x), s(?x,?y), B(?x)
=> refused 7 4
----
axiom Class(A)
fact A x
axiom Disjoint(A B)
=> refused 1 3
----
fact A=> refused 1 1
----


nonsense
=> refused 1 3
----
axiom SubClassOf(Prof Staff)
fact Prof ann
ask q(?y) :- Staff(?x)
=> refused 17 3
----
axiom SubClassOf(Prof Staff)
fact Prof ann
ask q(?x) :- Staff(?x),Staff(?x),Staff(?x),Staff(?x),Staff(?x),Staff(?x),Staff(?x),Staff(?x),Staff(?x),Staff(?x),Staff(?x),Staff(?x),Staff(?x),Staff(?x),Staff(?x),Staff(?x),Staff(?x),Staff(?x),Staff(?x),Staff(?x),Staff(?x),Staff(?x),Staff(?x),Staff(?x),Staff(?x)
=> refused 16 3
----
axiom SubClassOf(A B)
ask q(?y) :- A(?x),A(?x),A(?x),A(?x),A(?x),A(?x),A(?x),A(?x),A(?x),A(?x),A(?x),A(?x),A(?x),A(?x),A(?x),A(?x),A(?x),A(?x),A(?x),A(?x),A(?x),A(?x),A(?x),A(?x),A(?x)
=> refused 16 2
----
axiom SubClassOf(A B)
ask q(?x) :- A(?x)
ask q(?y) :- A(?x)
=> refused 1 3
----
axiom Class(A)
ask q(?x) :- A(?x)
fact A x
=> refused 1 3
----
axiom SubClassOf(A B)
ask q(?x) :- A(?x)
ask q(?x) :- B(?x)
=> refused 1 3
----
axiom SubClassOf(A B)
fact A x
axiom SubClassOf(B C)
=> refused 1 3
----
axiom SubClassOf(A B)
fact C x
nonsense
=> refused 6 2
----
axiom SubClassOf(A B)
ask q(?x) :- A(?x)
fact C x
=> refused 1 3
----
"
}

// Texts: carriage returns, a last line without its end, blanks, tabs and comments; names in angle brackets, which are
// others than the same bytes without.
pub(crate) fn texts() -> &'static str {
    "axiom SubClassOf(A B)\r
fact A x\r
\r
ask q(?x) :- B(?x)\r=> answer x
end 1
----
axiom SubClassOf(A B)
fact A\rx
=> refused 1 2
----
\x20\taxiom  SubClassOf( A\tB )\x20
# fact A y
\t# fact A z
\x20fact A\t x\x20
\x20
\task  q( ?x ) :-  B( ?x )\t
# the end=> answer x
end 1
----
axiom SubClassOf(<A ä> B)
fact <A ä> <ü>
fact B z
ask q(?x) :- B(?x)
=> refused 1 1
----
axiom SubClassOf(<Aä> B)
fact <Aä> <ü>
fact B z
ask q(?x) :- B(?x)
=> answer <ü>
answer z
end 2
----
axiom SubClassOf(A B)
fact <A> x
=> refused 6 2
----
axiom Class(A)
ask q() :- A(?x)

# the end
\x20
=> end 0
----
"
}
