//! Scripts and their replies over a base that is fresh. Each text is a row of cases: a script, `=> `, what is printed, and a
//! line `----`.

// Sessions: changes in order, changes that change nothing, two sessions side by side.
pub(crate) fn sessions() -> &'static str {
    "=> ----
# nothing is asked

=> ----
ontology
SubClassOf(A Some(r))
end
begin 0
add 0 A a
del 0 A a
commit 0
begin 0
del 0 A z
commit 0
begin 0
commit 0
=> ok ontology 1
ok
ok
ok
ok 1 0 0
ok
ok
ok 2 0 0
ok
ok 3 0 0
----
ontology
SubClassOf(A Some(r))
end
begin 0
add 0 A a
commit 0
begin 0
del 0 A a
add 0 A a
add 0 A a
add 0 r a b
commit 0
ask q(?x,?y) :- r(?x,?y)
=> ok ontology 1
ok
ok
ok 1 1 0
ok
ok
ok
ok
ok
ok 2 1 0
answer a b
end 1
----
ontology
SubClassOf(A Some(r))
end
begin 0
begin 1
begin 0
add 0 A a
add 1 A b
ask q(?x) :- A(?x)
commit 0
ask q(?x) :- A(?x)
abort 1
commit 1
=> ok ontology 1
ok
ok
error 9
ok
ok
end 0
ok 1 1 0
answer a
end 1
ok
error 8
----
ontology
SubClassOf(A Some(r))
end
begin 15
begin 3
add 15 A a
add 3 A a
del 3 r a b
commit 3
commit 15
abort 15
add 15 A a
begin 15
add 15 A b
reopen
commit 15
ask q(?x) :- A(?x)
=> ok ontology 1
ok
ok
ok
ok
ok
ok 1 1 0
ok 2 0 0
error 8
error 8
ok
ok
ok reopen 2
error 8
answer a
end 1
----
"
}

// Refusals, each with its reason, and what goes on behind them.
pub(crate) fn refusals() -> &'static str {
    "ask q(?x) :- A(?x)
begin 0
add 0 A a
commit 0
abort 0
check
prepare q(?x) :- A(?x)
run 0.1
drop 0.1
tables
tidy
reopen
=> error 3
error 3
error 3
error 3
error 3
error 3
error 3
error 3
error 3
error 3
ok
ok reopen 0
----
ontology
SubClassOf(A Some(r))
end
ask q(?x) :- Zed(?x)
ask q(?x) :- t(?x,?x)
ask q() :- A(nobody)
begin 0
add 0 Zed a
add 0 t a b
del 0 Zed a
add 1 A a
commit 0
=> ok ontology 1
error 6 Zed
error 7 t
end 0
ok
error 6 Zed
error 7 t
error 6 Zed
error 8
ok 1 0 0
----
begin 16
frob
tab
checks
commit
ask q(?x) :- A(?x
add 0 And a
=> error 1 8
error 1 1
error 1 4
error 1 6
error 1 7
error 1 18
error 1 10
----
ontology
SubClassOf(A B)
SubClassOf(A
end
ontology
SubClassOf(A Some(r))
end
ontology
SubClassOf(A Some(r))
end
ask q(?x) :- B(?x)
=> error 5 2 syntax
ok ontology 1
error 4
error 6 B
----
ontology
Class(A)
=> error 5 2 syntax
----
ontology
SubClassOf(A Some(r))
end
ask q(?x) :- A(?x), A(?x), A(?x), A(?x), A(?x), A(?x), A(?x), A(?x), A(?x), A(?x), A(?x), A(?x), A(?x), A(?x), A(?x), A(?x), A(?x), A(?x), A(?x), A(?x), A(?x), A(?x), A(?x), A(?x)
ask q(?x) :- A(?x), A(?x), A(?x), A(?x), A(?x), A(?x), A(?x), A(?x), A(?x), A(?x), A(?x), A(?x), A(?x), A(?x), A(?x), A(?x), A(?x), A(?x), A(?x), A(?x), A(?x), A(?x), A(?x), A(?x), A(?x)
ask q(?y) :- A(?x)
prepare q(?y) :- A(?x)
prepare q(?x) :- A(?x), Zed(?x)
prepare q(?x) :- t(?x,?x)
run 4294967296.1
run 0.18446744073709551616
=> ok ontology 1
end 0
error 16
error 17 ?y
error 17 ?y
error 6 Zed
error 7 t
error 1 14
error 1 26
----
"
}

// Prepared queries: handles that are given, dropped and never given, and queries over the rows as they are then.
pub(crate) fn handles() -> &'static str {
    "ontology
SubClassOf(A Some(r))
end
prepare q(?x) :- A(?x)
drop 0.1
run 0.1
prepare q(?x) :- A(?x)
run 0.1
run 7.1
run 0.3
run 0.2
=> ok ontology 1
prepared 0.1
ok
error 14 1
prepared 0.2
error 14 2
error 13
error 13
end 0
----
ontology
SubClassOf(A Some(r))
end
begin 0
prepare q(?x) :- A(?x)
reopen
commit 0
run 0.1
=> ok ontology 1
ok
prepared 0.1
ok reopen 0
error 8
error 13
----
ontology
SubClassOf(A Some(r))
Disjoint(A B)
end
prepare q(?x) :- r(?x,?y)
prepare q(?x) :- A(?x)
prepare q() :- B(?x)
begin 0
add 0 A a
run 0.1
commit 0
run 0.1
drop 1.1
drop 0.1
prepare q(?y) :- A(?y)
prepare q() :- A(b)
run 0.2
run 1.2
run 2.1
begin 0
add 0 B a
commit 0
run 2.1
drop 3.1
drop 2.0
drop 2.1
drop 2.1
=> ok ontology 2
prepared 0.1
prepared 1.1
prepared 2.1
ok
ok
end 0
ok 1 1 0
answer a
end 1
ok
ok
prepared 0.2
prepared 1.2
answer a
end 1
end 0
end 0
ok
ok
ok 2 1 0
inconsistent 2 a
error 13
error 13
ok
error 14 1
----
"
}

// Completed tables: witnesses that come and go with their generations, and the order of the lines.
pub(crate) fn tables() -> &'static str {
    "ontology
SubClassOf(A Some(r))
end
tables
begin 0
add 0 A a
commit 0
tables
begin 1
add 1 r a b
commit 1
tables
begin 0
del 0 r a b
commit 0
tables
tidy
reopen
tables
=> ok ontology 1
end 0
ok
ok
ok 1 1 0
witness r 1
concept A a
role r a *r
end 3
ok
ok
ok 2 1 0
concept A a
role r a b
end 2
ok
ok
ok 3 0 1
witness r 2
concept A a
role r a *r
end 3
ok
ok reopen 3
witness r 1
concept A a
role r a *r
end 3
----
ontology
SubClassOf(A Some(Inv(r)))
SubClassOf(A Some(r))
Range(r B)
end
begin 0
add 0 B b
add 0 A a
add 0 B <b>
commit 0
tables
=> ok ontology 3
ok
ok
ok
ok
ok 1 3 0
witness r 1
witness Inv(r) 1
concept A a
concept B <b>
concept B a
concept B b
concept B *r
role r a *r
role r *Inv(r) a
end 9
----
"
}

// Clashes that come and go with commits, and witnesses beside named successors.
pub(crate) fn clashes() -> &'static str {
    "ontology
SubClassOf(A Some(r))
Range(r B)
Range(r C)
Disjoint(B C)
end
check
begin 0
add 0 A bob
commit 0
check
ask q(?x) :- A(?x)
ask q(?x) :- Zed(?x)
begin 0
add 0 r bob ann
commit 0
check
begin 0
del 0 r bob ann
del 0 A bob
commit 0
check
ask q(?x) :- A(?x)
=> ok ontology 4
consistent
ok
ok
ok 1 1 0
inconsistent 4 bob via r
inconsistent 4 bob via r
error 6 Zed
ok
ok
ok 2 1 0
inconsistent 4 ann
ok
ok
ok
ok 3 0 2
consistent
end 0
----
ontology
SubClassOf(A Some(r))
end
begin 0
add 0 A a
add 0 A b
commit 0
ask q(?x,?y) :- r(?x,?z), r(?y,?z)
begin 0
add 0 r a b
commit 0
ask q(?x,?y) :- r(?x,?z), r(?y,?z)
ask q(?y) :- r(a,?y)
=> ok ontology 1
ok
ok
ok
ok 1 2 0
answer a a
answer b b
end 2
ok
ok
ok 2 1 0
answer a a
answer b b
end 2
answer b
end 1
----
"
}

// A small university.
pub(crate) fn university() -> &'static str {
    "# a small university
ontology
SubClassOf(Professor Faculty)
SubClassOf(Lecturer Faculty)
SubClassOf(Faculty Employee)
SubClassOf(Employee Person)
SubClassOf(Student Person)
SubClassOf(GradStudent Student)
SubClassOf(GradStudent Some(advisor))
Range(advisor Professor)
Domain(teaches Faculty)
Range(teaches Course)
SubClassOf(Professor Some(teaches))
Domain(takes Student)
Range(takes Course)
SubClassOf(Student Some(takes))
SubClassOf(Faculty Some(worksFor))
Range(worksFor Department)
SubClassOf(Department Some(partOf))
Range(partOf University)
Disjoint(Person Course)
Disjoint(Person Department)
end
begin 0
add 0 Professor ann
add 0 Professor bob
add 0 Professor kim
add 0 Lecturer cat
add 0 Employee ida
add 0 GradStudent dan
add 0 GradStudent eva
add 0 Student fay
add 0 Student gus
add 0 Student hal
add 0 Student jon
add 0 Course logic
add 0 Course algebra
add 0 Department cs
add 0 Department math
add 0 University uni
add 0 advisor dan ann
add 0 teaches ann logic
add 0 teaches bob algebra
add 0 teaches cat graphs
add 0 takes dan logic
add 0 takes eva logic
add 0 takes eva algebra
add 0 takes fay graphs
add 0 takes gus logic
add 0 takes jon graphs
add 0 worksFor ann cs
add 0 worksFor bob math
add 0 worksFor cat cs
add 0 partOf cs uni
commit 0
check
ask q(?x) :- Faculty(?x)
ask q(?x) :- advisor(?x,?y), teaches(?y,?z), Course(?z)
ask q(?x,?y) :- takes(?x,?z), takes(?y,?z), GradStudent(?x)
ask q(?x) :- worksFor(?x,?d), partOf(?d,?u), University(?u)
ask q(?x) :- Person(?x), takes(?x,graphs)
=> ok ontology 20
ok
ok
ok
ok
ok
ok
ok
ok
ok
ok
ok
ok
ok
ok
ok
ok
ok
ok
ok
ok
ok
ok
ok
ok
ok
ok
ok
ok
ok
ok
ok
ok 1 30 0
consistent
answer ann
answer bob
answer cat
answer kim
end 4
answer dan
answer eva
end 2
answer dan dan
answer dan eva
answer dan gus
answer eva dan
answer eva eva
answer eva gus
end 6
answer ann
answer bob
answer cat
answer kim
end 4
answer fay
answer jon
end 2
----
"
}
