//! Meshes that were drawn by chance, and the texts of their rest lists as an independent model gives them.

use super::*;

// Walks of up to four moves, two chunks, and bands that lie over each other.
pub(super) const FAR_WALKS: Listed<'static> = Listed {
    input: Input {
        node: b"13 2 0 0\n0 299 308\n1 236 1000\n2 90 -385\n3 -2 8\n4 999 -1000\n5 -70 -466\n\
            6 204 109\n7 380 -327\n8 318 -575\n9 102 -234\n10 -1001 -1000\n11 -6 0\n12 2 -8\n",
        ele: b"15 3 0\n0 6 5 9\n1 0 7 6\n2 9 6 7\n3 1 5 6\n4 2 5 7\n5 2 9 7\n6 8 4 7\n7 0 1 6\n\
            8 7 0 1\n9 5 8 7\n10 7 4 1\n11 5 1 10\n12 8 5 4\n13 4 5 10\n14 9 2 5\n",
        part: b"0\n1\n0\n1\n0\n0\n0\n1\n0\n0\n1\n0\n1\n1\n0\n",
        size: b"102 -1000 318 -1000 287979 1427917\n-70 0 -2 8 87464 1152921504606846976\n\
            204 308 236 1000 794904 4582168\n90 -1000 318 -8 0 22945\n\
            102 -466 299 -327 128052 128054\ndefault 162425 3999999\n",
    },
    text: b"parfum rest 1\nlong 1 4 at 1 4 odd-middle\nlong 1 10 at 1 10 odd-middle\n\
        long 2 7 at 5 7 odd-middle\nlong 4 10 at 4 10 passes\nlong 5 7 at 5 7 odd-middle\n\
        long 5 8 at 5 7 odd-middle\nlong 6 7 at 1 4 odd-middle\nlong 6 9 at 1 4 odd-middle\n\
        long 7 9 at 5 7 odd-middle\nshort 0 6 passes too-long 0 5\n\
        short 2 5 passes inverts 4 8\nshort 5 9 link-node 7 link-node 7\n\
        short 7 8 inverts 1 0 passes\nflip 5 7\nend 14\n",
};

// Nodes on straight sides, two triangles with two longest edges, and six chunks.
pub(super) const STRAIGHT_SIDES: Listed<'static> = Listed {
    input: Input {
        node: b"19 2 0 0\n0 0 -102\n1 20 1\n2 -20 -1\n3 2 -100\n4 4 -104\n5 0 -100\n6 8 -3\n\
            7 0 20\n8 0 1\n9 4 -102\n10 10 0\n11 2 -102\n12 0 -20\n13 7 7\n14 -10 0\n15 9 7\n\
            16 0 -1\n17 0 -104\n18 4 -100\n",
        ele: b"15 3 0\n0 11 0 17\n1 7 1 8\n2 9 3 11\n3 11 17 4\n4 14 7 8\n5 4 11 9\n6 8 14 16\n\
            7 2 16 12\n8 5 11 3\n9 16 8 10\n10 16 14 2\n11 9 18 3\n12 16 10 12\n13 0 5 11\n\
            14 1 10 8\n",
        part: b"1\n63\n1\n1\n53\n0\n53\n43\n53\n53\n52\n1\n52\n1\n63\n",
        size: b"4 7 20 7 8 499\n0 -104 4 -3 8 1152921504606846976\ndefault 5 5\n",
    },
    text: b"parfum rest 1\nlong 1 7 at 1 7 odd-middle\nlong 1 8 at 1 7 odd-middle\n\
        long 1 10 at 1 7 odd-middle\nlong 2 12 at 2 12 odd-middle\n\
        long 2 14 at 2 12 odd-middle\nlong 2 16 at 2 12 odd-middle\nlong 7 8 at 1 7 odd-middle\n\
        long 7 14 at 7 14 passes\nlong 8 10 at 1 7 odd-middle\nlong 8 14 at 2 12 odd-middle\n\
        long 10 12 at 10 12 passes\nlong 10 16 at 10 12 passes\nlong 14 16 at 2 12 odd-middle\n\
        short 0 5 passes corner\nshort 0 11 off-boundary passes\nshort 0 17 passes corner\n\
        short 3 5 passes corner\nshort 3 11 off-boundary passes\nshort 3 18 passes corner\n\
        short 4 9 corner passes\nshort 8 16 inverts 10 1 inverts 14 2\n\
        short 9 11 off-boundary passes\nshort 9 18 passes corner\nend 23\n",
};

// A size table of five rectangles, and a node between two pieces.
pub(super) const FIVE_BANDS: Listed<'static> = Listed {
    input: Input {
        node: b"16 2 0 0\n0 40 -175\n1 235 -1328\n2 2763 -3089\n3 2321 -722\n4 3332 11\n\
            5 2098 -2273\n6 2923 -2006\n7 -31 -1800\n8 1719 -3173\n9 1196 -722\n10 -78 -2755\n\
            11 851 -2916\n12 834 -158\n13 3315 -693\n14 953 -2340\n15 2044 332\n",
        ele: b"16 3 0\n0 0 1 12\n1 1 9 12\n2 1 7 14\n3 1 14 9\n4 7 10 11\n5 12 9 15\n6 9 3 15\n\
            7 9 14 3\n8 14 5 3\n9 14 11 8\n10 14 8 5\n11 15 3 13\n12 15 13 4\n13 3 5 13\n\
            14 5 8 2\n15 5 2 6\n",
        part: b"0\n0\n0\n0\n0\n0\n0\n0\n0\n0\n0\n0\n0\n0\n0\n0\n",
        size: b"-31 -2273 40 -1800 187978 1727701\n40 -2916 2044 332 0 1830020\n\
            953 -3173 1719 -1328 1259856 1152921504606846976\n\
            -31 -1800 2923 332 1198489 1830021\n834 -175 1196 11 0 988877\n\
            default 299622 1280644\n",
    },
    text: b"parfum rest 1\nlong 3 5 at 5 13 too-short 5 13\nlong 3 14 at 3 14 passes\n\
        long 5 13 at 5 13 too-short 5 13\nlong 7 11 at 7 11 passes\nlong 9 14 at 3 14 passes\n\
        long 13 15 at 13 15 too-short 13 15\nshort 3 13 too-long 9 13 corner\n\
        short 3 15 too-long 5 15 corner\nshort 8 11 corner pinched\nflip 1 12\nflip 3 14\n\
        flip 13 15\nend 12\n",
};

// Two triangles with two longest edges, and walks of up to six moves to three edges.
pub(super) const THREE_ENDS: Listed<'static> = Listed {
    input: Input {
        node: b"12 2 0 0\n0 7 -7\n1 6 5\n2 -8 0\n3 0 0\n4 -11 12\n5 -6 0\n6 -5 -3\n7 -2 0\n\
            8 -4 0\n9 -5 -12\n10 -12 0\n11 -10 0\n",
        ele: b"12 3 0\n0 2 11 9\n1 3 7 9\n2 7 8 9\n3 10 11 4\n4 11 10 9\n5 8 7 4\n6 11 2 4\n\
            7 8 5 9\n8 7 3 4\n9 5 8 4\n10 2 5 4\n11 5 2 9\n",
        part: b"11\n58\n46\n58\n0\n34\n58\n58\n46\n23\n58\n23\n",
        size: b"0 0 7 0 5 170\ndefault 0 4\n",
    },
    text: b"parfum rest 1\nlong 2 4 at 3 4 odd-middle\nlong 2 9 at 9 10 odd-middle\n\
        long 3 4 at 3 4 odd-middle\nlong 3 9 at 3 9 odd-middle\nlong 4 5 at 3 4 odd-middle\n\
        long 4 7 at 3 4 odd-middle\nlong 4 8 at 3 4 odd-middle\nlong 4 10 at 3 4 odd-middle\n\
        long 4 11 at 3 4 odd-middle\nlong 5 9 at 3 9 odd-middle\nlong 7 9 at 3 9 odd-middle\n\
        long 8 9 at 3 9 odd-middle\nlong 9 10 at 9 10 odd-middle\nlong 9 11 at 9 10 odd-middle\n\
        end 14\n",
};

// Pieces that share a node or nothing.
pub(super) const PIECES: Listed<'static> = Listed {
    input: Input {
        node: b"20 2 0 0\n0 12 -112\n1 12 -4\n2 14 -98\n3 4 -8\n4 29 -130\n5 33 -146\n6 -5 3\n\
            7 0 -16\n8 33 -119\n9 30 -103\n10 8 0\n11 4 -97\n12 13 -150\n13 3 -131\n14 0 0\n\
            15 16 -129\n16 4 8\n17 1 -148\n18 0 -4\n19 2 -118\n",
        ele: b"10 3 0\n0 11 19 0\n1 14 18 1\n2 7 1 3\n3 0 15 8\n4 2 0 8\n5 15 12 5\n6 19 13 15\n\
            7 18 3 1\n8 18 7 3\n9 17 12 15\n",
        part: b"11\n11\n11\n11\n62\n11\n62\n62\n62\n62\n",
        size: b"1 3 16 3 0 450\n-5 -130 4 0 200 1152921504606846976\n4 -97 30 -97 0 578\n\
            4 -150 4 0 0 1152921504606846976\n0 -119 12 -97 0 1152921504606846976\n\
            default 0 1152921504606846976\n",
    },
    text: b"parfum rest 1\nshort 3 7 passes corner\nshort 3 18 passes off-boundary\n\
        short 7 18 corner link-node 1\nshort 13 19 corner pinched\nshort 14 18 corner passes\n\
        flip 1 18\nend 6\n",
};

// Two nodes at one place, and three chunks.
pub(super) const THREE_CHUNKS: Listed<'static> = Listed {
    input: Input {
        node: b"17 2 0 0\n0 -4 0\n1 -5 -5\n2 -5 -10\n3 0 -10\n4 -10 0\n5 0 0\n6 0 0\n7 -16 0\n\
            8 0 -5\n9 -4 -12\n10 -15 -10\n11 -5 0\n12 -8 -4\n13 -15 0\n14 -15 -5\n15 -10 -5\n\
            16 -10 -10\n",
        ele: b"16 3 0\n0 15 4 1\n1 11 4 1\n2 9 0 12\n3 1 5 11\n4 10 16 15\n5 8 1 5\n6 14 15 4\n\
            7 4 14 13\n8 15 10 14\n9 8 1 2\n10 2 16 15\n11 8 2 3\n12 15 1 2\n13 0 6 9\n\
            14 7 12 0\n15 7 9 12\n",
        part: b"0\n0\n0\n0\n0\n0\n1\n1\n1\n1\n1\n2\n2\n2\n2\n2\n",
        size: b"-10 -5 -4 0 25 159\n-10 -12 -5 -4 24 26\n-4 -12 0 -10 0 50\n\
            -4 -10 0 -4 32 1152921504606846976\n-8 0 0 0 0 1152921504606846976\ndefault 6 51\n",
    },
    text: b"parfum rest 1\nlong 2 15 at 2 15 too-short 2 15\nlong 7 9 at 7 9 passes\n\
        long 7 12 at 0 7 passes\nlong 9 12 at 7 9 passes\nshort 1 8 passes off-boundary\n\
        short 3 8 corner passes\nflip 0 9\nend 7\n",
};

// Seven triangles, whose short edges are looked at from both ends.
pub(super) const SEVEN: Listed<'static> = Listed {
    input: Input {
        node: b"6 2 0 0\n0 -1000 1000\n1 -1000 -1000\n2 1000 -770\n3 -190 -426\n4 -922 561\n\
            5 -711 392\n",
        ele: b"7 3 0\n0 2 0 3\n1 3 0 5\n2 0 1 4\n3 1 2 3\n4 4 3 5\n5 0 4 5\n6 1 3 4\n",
        part: b"0\n0\n0\n1\n1\n2\n2\n",
        size: b"-1000 -770 -711 -770 18270 453186\ndefault 2442805 1152921504606846976\n",
    },
    text: b"parfum rest 1\nshort 0 4 corner link-node 3\nshort 0 5 corner passes\n\
        short 1 3 corner link-node 0\nshort 2 3 corner inverts 5 4\n\
        short 3 4 link-node 0 link-node 0\nshort 3 5 passes passes\nshort 4 5 passes passes\n\
        end 7\n",
};

// A triangle with two longest edges, and walks of up to four moves.
pub(super) const EQUAL_SIDES: Listed<'static> = Listed {
    input: Input {
        node: b"9 2 0 0\n0 -192 96\n1 0 64\n2 0 96\n3 192 80\n4 0 160\n5 0 32\n6 0 0\n7 0 128\n\
            8 0 192\n",
        ele: b"12 3 0\n0 0 5 6\n1 3 5 6\n2 3 4 7\n3 2 7 3\n4 8 0 4\n5 7 0 4\n6 3 1 5\n7 1 3 2\n\
            8 0 7 2\n9 0 1 2\n10 1 0 5\n11 8 4 3\n",
        part: b"0\n0\n0\n0\n0\n0\n0\n0\n0\n0\n0\n0\n",
        size: b"0 0 192 96 0 36864\ndefault 0 1024\n",
    },
    text: b"parfum rest 1\nlong 0 1 at 0 6 passes\nlong 0 2 at 0 8 passes\n\
        long 0 4 at 0 8 passes\nlong 0 5 at 0 6 passes\nlong 0 6 at 0 6 passes\n\
        long 0 7 at 0 8 passes\nlong 0 8 at 0 8 passes\nlong 1 3 at 3 8 passes\n\
        long 2 3 at 3 8 passes\nlong 3 4 at 3 8 passes\nlong 3 5 at 3 6 passes\n\
        long 3 6 at 3 6 passes\nlong 3 7 at 3 8 passes\nlong 3 8 at 3 8 passes\nend 14\n",
};

// Twenty-nine triangles, of which lines of all three kinds speak.
pub(super) const TWENTY_NINE: Listed<'static> = Listed {
    input: Input {
        node: b"17 2 0 0\n0 24 -22\n1 36 -23\n2 -60 59\n3 7 2\n4 60 -29\n5 -2 -28\n6 4 -15\n\
            7 33 -15\n8 22 -7\n9 11 3\n10 44 -25\n11 35 -15\n12 -60 -61\n13 25 -18\n14 -28 -36\n\
            15 13 -17\n16 38 -19\n",
        ele: b"29 3 0\n0 3 5 6\n1 2 9 4\n2 8 4 3\n3 4 10 0\n4 1 16 0\n5 3 11 8\n6 3 12 2\n\
            7 5 6 15\n8 15 3 6\n9 14 5 12\n10 16 10 4\n11 16 4 11\n12 7 16 11\n13 16 3 7\n\
            14 15 0 5\n15 4 11 8\n16 3 4 9\n17 0 16 13\n18 3 15 0\n19 3 9 2\n20 11 3 7\n\
            21 0 13 3\n22 5 3 14\n23 14 3 12\n24 16 3 13\n25 5 0 4\n26 0 10 1\n27 12 4 5\n\
            28 1 10 16\n",
        part: b"1\n1\n0\n1\n0\n1\n1\n0\n1\n0\n1\n0\n1\n0\n1\n1\n1\n1\n1\n1\n0\n0\n0\n0\n1\n0\n1\n\
            0\n1\n",
        size: b"7 -61 25 -25 0 2669\n-2 -25 35 -7 0 1152921504606846976\n4 -19 25 2 16 4453\n\
            22 -36 44 -7 73 8458\n33 -61 60 -25 739 2670\ndefault 0 298\n",
    },
    text: b"parfum rest 1\nlong 2 3 at 2 4 passes\nlong 2 4 at 2 4 passes\n\
        long 2 9 at 2 4 passes\nlong 2 12 at 2 12 passes\nlong 3 12 at 2 12 passes\n\
        long 3 14 at 2 12 passes\nlong 4 11 at 3 4 odd-middle\nlong 4 12 at 4 12 passes\n\
        long 4 16 at 3 4 odd-middle\nlong 5 12 at 4 12 passes\nlong 5 14 at 4 12 passes\n\
        long 12 14 at 2 12 passes\nshort 1 10 passes passes\nshort 1 16 passes inverts 10 4\n\
        short 4 10 corner passes\nshort 7 16 passes too-long 4 7\n\
        short 10 16 link-node 0 link-node 0\nshort 11 16 link-node 3 link-node 3\nflip 0 3\n\
        flip 0 16\nflip 3 4\nflip 3 11\nflip 3 16\nflip 4 16\nend 24\n",
};
