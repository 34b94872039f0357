// Texts of queries, and what they are scoped to or refused with.
pub static REFUSED: [(&str, &str); 4] = [
    ("RETURN 'a", "query: byte 7: open string"),
    ("RETURN 1 RETURN x", "query: not in the grammar"),
    (
        "FOR v IN 1..33 OUTBOUND 'c/a' e RETURN x",
        "limit: traversal depth",
    ),
    ("RETURN x", "query: unknown name x"),
];

pub static PLAIN: [(&str, &str); 7] = [
    ("RETURN 1", "return 1 |"),
    (
        "FOR x IN c RETURN DISTINCT x",
        "for #1 in c; return distinct #1 | x",
    ),
    (
        "WITH c, e FOR x IN e RETURN x",
        "with c e; for #1 in e; return #1 | x",
    ),
    (
        "LET x = 1, y = x RETURN {x, y}",
        "let #1 = 1; let #2 = #1; return { x: #1 y: #2 } | x y",
    ),
    (
        "LET x = 1 LET X = x RETURN X",
        "let #1 = 1; let #2 = #1; return #2 | x X",
    ),
    (
        "FOR `for` IN `c` RETURN `for`.`a b`",
        "for #1 in c; return #1.a b | for",
    ),
    (
        "FOR x IN 1..3 FILTER !x && x < 2 SORT x, -x DESC LIMIT 1, 2 RETURN x ? : +x",
        "for #1 in 1..3; filter !#1 && #1 < 2; sort #1 -#1 desc; limit 1 2; return #1 ? : +#1 \
            | x",
    ),
];

pub static COLLECTION_NAMES: [(&str, &str); 8] = [
    (
        "LET c = [1] FOR x IN c RETURN x",
        "let #1 = [ 1 ]; for #2 in #1; return #2 | c x",
    ),
    (
        "LET c = [1] RETURN (FOR x IN c RETURN x)",
        "let #1 = [ 1 ]; let #2 = (for #3 in #1; return #3); return #2 | c sub x",
    ),
    (
        "LET c = 1 COLLECT INTO g FOR x IN c RETURN [g, x]",
        "let #1 = 1; collect into #2 = { c: #1 }; for #3 in c; return [ #2 #3 ] | c g x",
    ),
    (
        "FOR c IN c FOR d IN c RETURN d",
        "for #1 in c; for #2 in #1; return #2 | c d",
    ),
    (
        "RETURN length([Typename(1)])",
        "return length( [ Typename( 1 ) ] ) |",
    ),
    (
        "LET length = 1 RETURN LENGTH([length])",
        "let #1 = 1; return LENGTH( [ #1 ] ) | length",
    ),
    (
        "FOR x IN c RETURN x.l[* FILTER CURRENT == x.a RETURN CURRENT + 1].b",
        "for #1 in c; return #1.l[* filter @ == #1.a return @ + 1].b | x",
    ),
    (
        "FOR x IN c RETURN x.a ANY IN [x]",
        "for #1 in c; return #1.a Any in [ #1 ] | x",
    ),
];

pub static SUBQUERIES: [(&str, &str); 8] = [
    (
        "FOR x IN c FILTER x.a == (FOR y IN x.b RETURN y) RETURN x",
        "for #1 in c; let #2 = (for #3 in #1.b; return #3); filter #1.a == #2; return #1 | x \
            sub y",
    ),
    (
        "LET a = (FOR x IN c RETURN x) RETURN a",
        "let #1 = (for #2 in c; return #2); return #1 | a x",
    ),
    (
        "LET a = LENGTH(FOR x IN c RETURN x) RETURN a",
        "let #2 = (for #3 in c; return #3); let #1 = LENGTH( #2 ); return #1 | a sub x",
    ),
    (
        "LET x = (FOR a IN c LIMIT 1 RETURN a._key) FOR i IN 1..3 RETURN x[0]",
        "let #1 = (for #2 in c; limit 0 1; return #2._key); for #3 in 1..3; return #1[0] | x a i",
    ),
    (
        "LET a = ((RETURN 1)) RETURN a",
        "let #1 = (return 1); return #1 | a",
    ),
    (
        "LET x = (FOR x IN c RETURN x) RETURN x",
        "let #1 = (for #2 in c; return #2); return #1 | x x",
    ),
    (
        "FOR x IN (FOR x IN c RETURN x) RETURN x",
        "let #2 = (for #3 in c; return #3); for #1 in #2; return #1 | x sub x",
    ),
    (
        "FOR x IN APPEND((RETURN 1), [2]) RETURN x",
        "let #2 = (return 1); for #1 in APPEND( #2 [ 2 ] ); return #1 | x sub",
    ),
];

pub static SEVERAL_SUBQUERIES: [(&str, &str); 7] = [
    (
        "FOR x IN c SORT (RETURN x.a)[0], x.b DESC RETURN x",
        "for #1 in c; let #2 = (return #1.a); sort #2[0] #1.b desc; return #1 | x sub",
    ),
    (
        "FOR x IN c RETURN {a: x, b: (RETURN x), [(RETURN 1)]: 2}",
        "for #1 in c; let #2 = (return #1); let #3 = (return 1); return { a: #1 b: #2 [#3]: 2 \
            } | x sub sub",
    ),
    ("RETURN (RETURN 1)", "let #1 = (return 1); return #1 | sub"),
    (
        "RETURN [1][(RETURN 0)[0]]",
        "let #1 = (return 0); return [ 1 ][#1[0]] | sub",
    ),
    (
        "RETURN SUM(FOR x IN c RETURN LENGTH(FOR y IN d RETURN [x, y]))",
        "let #1 = (for #2 in c; let #3 = (for #4 in d; return [ #2 #4 ]); return LENGTH( #3 \
            )); return SUM( #1 ) | sub x sub y",
    ),
    (
        "LET a = (FOR x IN c RETURN x) LET b = (FOR x IN d RETURN [a, x]) RETURN [a, b]",
        "let #1 = (for #2 in c; return #2); let #3 = (for #4 in d; return [ #1 #4 ]); return [ \
            #1 #3 ] | a x b x",
    ),
    (
        "FOR x IN c LET a = (LET b = 1 + (RETURN x)[0] RETURN b) RETURN a",
        "for #1 in c; let #2 = (let #4 = (return #1); let #3 = 1 + #4[0]; return #3); return \
            #2 | x a b sub",
    ),
];

pub static WALKS: [(&str, &str); 5] = [
    (
        "FOR v IN OUTBOUND 'c/a' e RETURN v",
        "walk #1 in 1..1 Outbound 'c/a' over e with Path None; return #1 | v",
    ),
    (
        "FOR v, a IN 2..3 INBOUND 'c/a' e OPTIONS {} RETURN a",
        "walk #1 #2 in 2..3 Inbound 'c/a' over e with Path None; return #2 | v a",
    ),
    (
        "FOR v, a, p IN 2 ANY (RETURN 'c/a')[0] e PRUNE p.x == a OPTIONS {order: 'bfs', \
            uniqueVertices: 'global', uniqueEdges: 'none'} RETURN [v, a, p]",
        "let #4 = (return 'c/a'); walk #1 #2 #3 in 2..2 Any #4[0] over e prune #3.x == #2 with \
            None Global bfs; return [ #1 #2 #3 ] | v a p sub",
    ),
    (
        "FOR x IN c FOR v IN OUTBOUND x e, e OPTIONS {'bfs': true, order: 'bfs'} RETURN [x, v]",
        "for #1 in c; walk #2 in 1..1 Outbound #1 over e e with Path None bfs; return [ #1 #2 \
            ] | x v",
    ),
    (
        "LET e = 1 FOR v IN 0..2 OUTBOUND 'c/a' e OPTIONS {uniqueVertices: 'path', bfs: false} \
            RETURN e",
        "let #1 = 1; walk #2 in 0..2 Outbound 'c/a' over e with Path Path; return #1 | e v",
    ),
];

pub static COLLECTS: [(&str, &str); 6] = [
    (
        "FOR x IN c COLLECT a = x.k, b = x.l RETURN [a, b]",
        "for #1 in c; collect #2 = #1.k #3 = #1.l; return [ #2 #3 ] | x a b",
    ),
    (
        "FOR x IN c COLLECT a = x.k AGGREGATE s = sum(x.n), n = COUNT() RETURN [a, s, n]",
        "for #1 in c; collect #2 = #1.k aggregate #3 = sum( #1.n ) aggregate #4 = COUNT( ); \
            return [ #2 #3 #4 ] | x a s n",
    ),
    (
        "FOR x IN c COLLECT WITH COUNT INTO n RETURN n",
        "for #1 in c; collect aggregate #2 = LENGTH( ); return #2 | x n",
    ),
    (
        "FOR x IN c COLLECT INTO g = x.a RETURN g",
        "for #1 in c; collect into #2 = #1.a; return #2 | x g",
    ),
    (
        "FOR x IN c LET y = x.a COLLECT k = y INTO g RETURN g",
        "for #1 in c; let #2 = #1.a; collect #3 = #2 into #4 = { x: #1 y: #2 }; return #4 | x \
            y k g",
    ),
    (
        "FOR x IN c LET y = 1, z = 2 COLLECT INTO g KEEP x, z RETURN g",
        "for #1 in c; let #2 = 1; let #3 = 2; collect into #4 = { x: #1 z: #3 }; return #4 | x \
            y z g",
    ),
];

pub static COLLECTS_WITHIN: [(&str, &str); 7] = [
    (
        "COLLECT INTO g RETURN g",
        "collect into #1 = { }; return #1 | g",
    ),
    (
        "FOR x IN c COLLECT k = x.k INTO g COLLECT INTO h RETURN h",
        "for #1 in c; collect #2 = #1.k into #3 = { x: #1 }; collect into #4 = { k: #2 g: #3 \
            }; return #4 | x k g h",
    ),
    (
        "FOR x IN c COLLECT k = x.k FOR x IN d RETURN [k, x]",
        "for #1 in c; collect #2 = #1.k; for #3 in d; return [ #2 #3 ] | x k x",
    ),
    (
        "FOR x IN c RETURN (FOR y IN d COLLECT INTO g RETURN g)",
        "for #1 in c; let #2 = (for #3 in d; collect into #4 = { y: #3 }; return #4); return \
            #2 | x sub y g",
    ),
    (
        "FOR x IN c RETURN (FOR y IN d COLLECT k = y.k RETURN [k, x])",
        "for #1 in c; let #2 = (for #3 in d; collect #4 = #3.k; return [ #4 #1 ]); return #2 | \
            x sub y k",
    ),
    (
        "FOR x IN c COLLECT k = (RETURN x.k)[0] AGGREGATE s = SUM((RETURN x.n)[0]) INTO g = \
            (RETURN x) RETURN g",
        "for #1 in c; let #3 = (return #1.k); let #5 = (return #1.n); let #7 = (return #1); \
            collect #2 = #3[0] aggregate #4 = SUM( #5[0] ) into #6 = #7; return #6 | x k sub s \
            sub g sub",
    ),
    (
        "FOR v, a, p IN OUTBOUND 'c/a' e COLLECT INTO g RETURN g",
        "walk #1 #2 #3 in 1..1 Outbound 'c/a' over e with Path None; collect into #4 = { v: #1 \
            a: #2 p: #3 }; return #4 | v a p g",
    ),
];
