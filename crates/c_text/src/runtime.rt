// What is the same in each file.

/// Waits, arithmetic and printing.
pub const RUNTIME: &str = r#"
/* ---- the same in every emitted file ------------------------------------------------------------------------------ */
#define _POSIX_C_SOURCE 200809L
#include <inttypes.h>
#include <pthread.h>
#include <stdio.h>
#include <time.h>
#ifdef __linux__
#include <sys/prctl.h>
#define PUNCTUAL() prctl(PR_SET_TIMERSLACK, 1UL) /* naps end on time */
#else
#define PUNCTUAL() ((void)0)
#endif
#if defined(__x86_64__) || defined(__i386__)
#define RELAX() __builtin_ia32_pause()
#elif defined(__aarch64__)
#define RELAX() __asm__ __volatile__("yield")
#else
#define RELAX() ((void)0)
#endif
#ifndef SPINS
#define SPINS 2000 /* polls before a waiting thread sleeps between polls */
#endif
typedef uint64_t word;  /* a value: 64 bits, wrapping */
typedef int64_t number; /* the same bits with a sign; loops and subscripts, which never overflow */
#define W(x) ((word)(x))
#define FAST static inline __attribute__((unused))
#define SHARED static _Alignas(128) __attribute__((unused))

#ifdef DELAYS /* for tests: a pause of some length behind each wait */
FAST void linger(void) {
  static _Thread_local word seed;
  struct timespec now;
  if (seed == 0) { clock_gettime(CLOCK_MONOTONIC, &now); seed = (W(now.tv_nsec) << 20) ^ W((uintptr_t)&seed) ^ 1; }
  seed = seed * 6364136223846793005U + 1442695040888963407U;
  now.tv_sec = 0; now.tv_nsec = (long)(seed >> 33) % 100000;
  if (seed >> 63) nanosleep(&now, 0);
}
#else
#define linger() ((void)0)
#endif

/* a source may compare a form with itself, store a variable to itself, and have loops that are never
   reached, where a subscript may be anything */
#pragma GCC diagnostic ignored "-Wtautological-compare"
#pragma GCC diagnostic ignored "-Warray-bounds"
#ifdef __clang__
#pragma GCC diagnostic ignored "-Wself-assign"
#else
#pragma GCC diagnostic ignored "-Waggressive-loop-optimizations"
/* where a short loop lies makes it up to twice as slow */
#pragma GCC optimize ("align-loops=32")
#endif

/* a word that others wait for has two cache lines to itself */
struct line { _Alignas(128) word n; };
static struct line counter[P], arrivals; /* counter[p]: phases that p has left behind; arrivals: at barriers, of all */

/* naps grow from 4 to 256 microseconds: a short stall costs a short one, and a busy machine is left alone */
FAST void await(const word *it, word wanted) {
  struct timespec nap = { 0, 4000 };
  for (long polls = 0; __atomic_load_n(it, __ATOMIC_ACQUIRE) < wanted; polls++)
    if (polls < SPINS) RELAX();
    else { nanosleep(&nap, 0); if (nap.tv_nsec < 256000) nap.tv_nsec *= 2; }
  linger();
}
FAST void post(long p, word e) { __atomic_store_n(&(counter + p)->n, e - 1, __ATOMIC_RELEASE); }
FAST void await_one(long q, word e) { await(&(counter + q)->n, e - 1); }

/* the kinds of wait in front of phase e: NOTHING has no text */
FAST void left(long p, word e) { /* p waits for p - 1 */
  if (p + 1 < P) post(p, e);
  if (p > 0) await_one(p - 1, e);
}
FAST void right(long p, word e) { /* p waits for p + 1 */
  if (p > 0) post(p, e);
  if (p + 1 < P) await_one(p + 1, e);
}
FAST void both(long p, word e) {
  if (P > 1) post(p, e);
  if (p > 0) await_one(p - 1, e);
  if (p + 1 < P) await_one(p + 1, e);
}
FAST void producer(long p, word e, long q) { /* all wait for q */
  if (p == q) post(p, e); else await_one(q, e);
}
FAST void barrier(word *rounds) { /* all wait for all */
  if (P == 1) return;
  __atomic_fetch_add(&arrivals.n, 1, __ATOMIC_ACQ_REL);
  await(&arrivals.n, W(P) * ++*rounds);
}
FAST void add(word *cell, word total) { __atomic_fetch_add(cell, total, __ATOMIC_RELAXED); }

FAST word over(word a, number c) { return c == -1 ? 0 - a : W((number)a / c); } /* toward zero; least over -1 is least */
FAST word least(word a, word b) { return (number)a < (number)b ? a : b; }
FAST word greatest(word a, word b) { return (number)a > (number)b ? a : b; }
FAST number smaller(number a, number b) { return a < b ? a : b; }
FAST number larger(number a, number b) { return a > b ? a : b; }
FAST number floored(number a, number b) { return a / b - (a % b < 0); } /* b above 0 */
FAST number raised(number a, number b) { return a / b + (a % b > 0); }
FAST number last_trip(number m1, number m2, number s) { return m1 + (m2 - m1) / s * s; } /* of a loop that has one */
FAST number modulo(number a, number b) { return a % b < 0 ? a % b + b : a % b; }
FAST void print(word a) { printf(" %" PRId64, (number)a); }
FAST void print_all(const word *a, long n) { for (long j = 0; j < n; j++) print(a[j]); }
"#;

/// The threads.
pub const MAIN: &str = r#"
int main(void) {
  pthread_t thread[P];
  for (long p = 1; p < P; p++)
    if (pthread_create(&thread[p], 0, worker, (void *)(intptr_t)p)) return 5;
  worker((void *)0);
  for (long p = 1; p < P; p++) pthread_join(thread[p], 0);
  return fflush(stdout) || ferror(stdout) ? 4 : 0;
}
"#;
