//! Canonical texts: `layout` writes them statement by statement, and runs of bz_engine_examples byte by byte.

/// A chunk, and the canonical text of its statement.
pub const TEXTS: &str = r##"
---
f(name='a')
->
f(name = "a")
---
f(
    name = "a",
    deps = [ # c1
        "x", # c2
        "y" # c3
        , "z", "w"
        # c4
    ],
)
->
f(
    name = "a",
    deps = [
        # c1
        "x",  # c2
        "y",  # c3
        "z",
        "w",
        # c4
    ],
)
---
f(deps = ["a","d"] + select({"c": ["b"]}), name = "a")
->
f(
    deps = [
        "a",
        "d",
    ] + select({
        "c": ["b"],
    }),
    name = "a",
)
---
x = [k+v for k,v in d.items()]
->
x = [k + v for k, v in d.items()]
---
x=(1)
->
x = (1)
---
y=(1,)
->
y = (1,)
---
f( # note
name = "a")
->
f(
    # note
    name = "a",
)
---
# top

->
# top
---
# of x
x = 1 # s
->
# of x
x = 1  # s
---
# end␄
->
# end
---
f(deps = [":x", ":y"], name = "a")
->
f(
    deps = [
        ":x",
        ":y",
    ],
    name = "a",
)
---
f(name = "a", deps = ["x y", "z"], n = 1+2)
->
f(
    name = "a",
    deps = [
        "x y",
        "z",
    ],
    n = 1 + 2,
)
---
x={'a':[1,2]}
->
x = {
    "a": [
        1,
        2,
    ],
}
---
x[1 : - 2]
->
x[1:-2]
---
x = [ ':a', "b"[ : : ], a not in b ]
->
x = [
    ":a",
    "b"[::],
    a not in b,
]
---
f ( name = "a" , deps = [ "x" ] , n = 1 + 2 , l = [ "a" , "b" ] )␄
->
f(
    name = "a",
    deps = ["x"],
    n = 1 + 2,
    l = [
        "a",
        "b",
    ],
)
---
f ( [ a , b ] ) . c␄
->
f([
    a,
    b,
]).c
---
x = f ( [ a , b ] , c )␄
->
x = f(
    [
        a,
        b,
    ],
    c,
)
---
[ [ a , b ] ]␄
->
[[
    a,
    b,
]]
---
[ [ a ] ]␄
->
[[a]]
---
f ( x = { } )␄
->
f(x = {})
---
f ( a = g ( [ 1 , 2 ] ) , b = 1 )␄
->
f(
    a = g([
        1,
        2,
    ]),
    b = 1,
)
---
x = ( a , b )␄
->
x = (a, b)
---
x = ( a , [ 1 , 2 ] )␄
->
x = (
    a,
    [
        1,
        2,
    ],
)
---
load ( "m" , a = 'b' )␄
->
load("m", a = "b")
"##;
